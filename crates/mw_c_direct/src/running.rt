//! Runs plans on whole images, step by step.

ghost use Rattle.std.specs.Prelude.{◌≡◌, ℕ, ◌-◌, ◌<◌, ◌≤◌, false, true, length, slice_index_or, slice_set, IfOk, OnOk};
ghost use Rattle.std.specs.List.{AllByRecursion};
ghost use Rattle.mw_model.specs.Pictures.{Picture};
ghost use Rattle.mw_model.specs.Plans.{is_sum, no_picture, numbers_from};
ghost use Rattle.mw_model.specs.Tasks.{flag, nothing_planned};
ghost use Rattle.mw_c_direct.specs.Kept.{IsEmpty, SourceIsMade};
ghost use Rattle.mw_c_direct.specs.Products.{IsNumberOf, number_made, put};
ghost use Rattle.mw_c_direct.specs.Runs.{HasRun, IsRunnable, planes_on};

use crate::making::{Product, made};
use crate::order::next_before;
use crate::spent::{drop_spent, drop_unwanted};
use mw_model::NoMemory;
use mw_pixel::Image;
use mw_plan::Plan;
use std::alloc::Global;

/// Which steps are made, and their planes, as long as a step that is not made yet reads them.
#[derive(Drop)]
struct Run {
    made: Vec<bool>,
    planes: Vec<Option<Image>>,
}

/// Places for so many planes, all empty.
fn empty_places(alloc: Global, count: usize) -> Result<Vec<Option<Image>>, NoMemory>
    ensures count { IfOk result (λ v. length v.items ≡ count) }
    ensures empty { IfOk result (λ v. IsEmpty v.items) }
{
    let mut planes = Vec::with_capacity(alloc, count)?;
    'places: while planes.len() < count {
        planes.push(None)?;
    }
    Ok(planes)
}

impl Run {
    /// Nothing is made yet.
    #[tactic(auto, using(crate::proofs::Steps::nothing_run, crate::proofs::Steps::none_made))]
    fn new(alloc: Global, plan: &Plan) -> Result<Run, NoMemory>
        ensures run { (image : Picture) → IfOk result (λ r. HasRun plan.now image r.made.items r.planes.items) }
        ensures unmade { IfOk result (λ r. (j : ℕ) → flag r.made.items j ≡ false) }
    {
        let planes = empty_places(alloc, plan.len())?;
        let made = vec![in alloc; false; plan.len()]?;
        Ok(Run { made, planes })
    }

    /// Puts the plane of step `k` into its place, or gives its number.
    fn put(&mut self, k: usize, product: Product) -> Option<u64>
        requires { k < length self.old.planes.items }
        ensures planes { self.new.planes.items ≡ put self.old.planes.items k product }
        ensures made { self.new.made.items ≡ self.old.made.items }
        ensures number { result ≡ number_made product }
    {
        match product {
            Product::Plane(plane) => {
                self.planes[k] = Some(plane);
                None
            }
            Product::Number(n) => Some(n),
        }
    }

    /// Makes step `k`, whose sources are made, and drops the planes that it is the last to read. Its number, if it sums up.
    fn advance(
        &mut self,
        alloc: Global,
        plan: &Plan,
        image: &Image,
        k: usize,
    ) -> Result<Option<u64>, NoMemory>
        requires runnable { IsRunnable plan.now image.now }
        requires within { k < length plan.now }
        requires run { HasRun plan.now image.now self.old.made.items self.old.planes.items }
        requires unmade { flag self.old.made.items k ≡ false }
        requires sources { AllByRecursion (SourceIsMade self.old.made.items) (slice_index_or plan.now k nothing_planned).sources }
        ensures run { OnOk result (HasRun plan.now image.now self.new.made.items self.new.planes.items) }
        ensures made { OnOk result (self.new.made.items ≡ slice_set self.old.made.items k true) }
        ensures number { IfOk result (IsNumberOf (slice_index_or plan.now k nothing_planned).step (slice_index_or (planes_on plan.now image.now) k no_picture)) }
    {
        let step = plan.step(k);
        let product = made(alloc, step, image, &self.planes)?;
        let number = self.put(k, product);
        self.made[k] = true;
        drop_spent(plan, &self.made, step.sources, &mut self.planes);
        drop_unwanted(plan, &self.made, k, &mut self.planes);
        Ok(number)
    }

    /// Makes all that step `k` reads.
    fn provide(
        &mut self,
        alloc: Global,
        plan: &Plan,
        image: &Image,
        k: usize,
    ) -> Result<(), NoMemory>
        requires runnable { IsRunnable plan.now image.now }
        requires within { k < length plan.now }
        requires run { HasRun plan.now image.now self.old.made.items self.old.planes.items }
        ensures run { OnOk result (HasRun plan.now image.now self.new.made.items self.new.planes.items) }
        ensures sources { OnOk result (AllByRecursion (SourceIsMade self.new.made.items) (slice_index_or plan.now k nothing_planned).sources) }
        ensures later { OnOk result ((i : ℕ) → k ≤ i → flag self.new.made.items i ≡ flag self.old.made.items i) }
    {
        'steps: while let Some(j) = next_before(plan, &self.made, k) {
            self.advance(alloc, plan, image, j)?;
        }
        Ok(())
    }
}

/// The plane of the last step.
pub(crate) fn last_plane(alloc: Global, plan: &Plan, image: &Image) -> Result<Image, NoMemory>
    requires runnable { IsRunnable plan.now image.now }
    requires last { is_sum (slice_index_or plan.now (length plan.now - 1) nothing_planned).step ≡ false }
    ensures { IfOk result (λ f. f ≡ slice_index_or (planes_on plan.now image.now) (length plan.now - 1) no_picture) }
{
    let last = plan.len() - 1;
    let mut run = Run::new(alloc, plan)?;
    run.provide(alloc, plan, image, last)?;
    match made(alloc, plan.step(last), image, &run.planes)? {
        Product::Plane(plane) => Ok(plane),
        Product::Number(_) => unreachable!(),
    }
}

/// The numbers of the steps that sum up.
pub(crate) fn numbers(alloc: Global, plan: &Plan, image: &Image) -> Result<Vec<u64>, NoMemory>
    requires { IsRunnable plan.now image.now }
    ensures { IfOk result (λ v. v.items ≡ numbers_from plan.now (planes_on plan.now image.now)) }
{
    let mut run = Run::new(alloc, plan)?;
    let mut numbers = Vec::new(alloc);
    'steps: for k in 0..plan.len() {
        if plan.step(k).step.is_sum() {
            run.provide(alloc, plan, image, k)?;
            if let Some(n) = run.advance(alloc, plan, image, k)? {
                numbers.push(n)?;
            }
        }
    }
    Ok(numbers)
}
