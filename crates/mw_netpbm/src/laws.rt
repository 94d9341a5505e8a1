//! What holds of files and bitmaps: each law is the contract of an empty function.

ghost use Rattle.std.specs.Prelude.{◌≡◌, ℕ, List};
ghost use Rattle.mw_model.specs.declared.codes.Code.{Code};
ghost use Rattle.mw_model.specs.NetpbmGrammar.{IsFile};
ghost use Rattle.mw_model.specs.NetpbmRefusals.{Refuses};
ghost use Rattle.mw_model.specs.NetpbmWriting.{text_of};
ghost use Rattle.mw_model.specs.Pictures.{Picture, IsImage};

pub use mw_netpbm_plain::laws::one_bitmap;

/// No bytes are files of two images.
pub fn one_image()
    ensures { (bytes : List ℕ) (i j : Picture) → IsFile bytes i → IsFile bytes j → i ≡ j }
{}

/// What a file shows is within the limits.
pub fn files_are_writable()
    ensures { (bytes : List ℕ) (i : Picture) → IsFile bytes i → IsImage i }
{}

/// What is written of an image is a file of it.
pub fn is_read_again()
    ensures { (i : Picture) → IsImage i → IsFile (text_of i) i }
{}

/// Bytes that are no file have one refusal at most, and a file has none.
pub fn one_refusal()
    ensures one { (bytes : List ℕ) (c d : Code) → Refuses bytes c → Refuses bytes d → c ≡ d }
    ensures none { (bytes : List ℕ) (c : Code) (i : Picture) → Refuses bytes c → IsFile bytes i → ⊥ }
{}
