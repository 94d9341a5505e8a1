//! What holds of labels and regions. Each function is a law, and does nothing.

ghost use Rattle.std.specs.Prelude.{◌≡◌, ℕ, List, length, map};
ghost use Rattle.mw_model.specs.declared.offsets.Offset.{Offset};
ghost use Rattle.mw_model.specs.Pictures.{Picture, IsSet};
ghost use Rattle.mw_geodesic.specs.Neighbours.{IsSymmetric};
ghost use Rattle.mw_geodesic.specs.Labels.{IsLabelling};
ghost use Rattle.mw_geodesic.specs.Components.{regions};
ghost use Rattle.mw_geodesic_labels.specs.declared.regions.Region.{Region};
ghost use Rattle.mw_geodesic_labels.specs.Regions.{AreRegionsOf, region_told};

/// What is told of the components of a set is what their definition by reconstructions of points says. Under a symmetric
/// element each list that says so is told of them. A labelling counts as many components as that definition.
pub fn told_as_defined()
    ensures told { (e : List Offset) (f : Picture) (rs : List Region) → IsSet f → AreRegionsOf e f rs → map region_told rs ≡ regions e f }
    ensures defined { (e : List Offset) (f : Picture) (rs : List Region) → IsSymmetric e → IsSet f → map region_told rs ≡ regions e f → AreRegionsOf e f rs }
    ensures count { (e : List Offset) (f : Picture) (count : ℕ) (labels : List ℕ) → IsSet f → IsLabelling e f count labels → count ≡ length (regions e f) }
{}
