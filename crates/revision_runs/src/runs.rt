//! The runs of a tree.
ghost use Rattle.std.specs.Prelude.{◌≡◌, ◌≢◌, ◌≤◌, true, false, Some, None, IfOk, IfSome};
ghost use Rattle.model.specs.Map.{empty, get, put, without};
ghost use Rattle.model.specs.Revision.{Rev, same_rev};
ghost use Rattle.revision_runs.specs.Runs.{EndsAt, HangsUnder, IsNearestUnder, IsDeepest, foot_of, hung_of, deep_of, steps_of};
ghost use Rattle.revision_runs.specs.declared.run.Run as declared;

use crate::deep::Deep;
use crate::foot::Foot;
use crate::hung::Hung;
use crate::keys::{entered, first, first_from, moved, struck};
use crate::run::Run;
use cow_index::CowMap;
use revision_id::RevId;
use std::alloc::{AllocError, Global};
use std::marker::Model;

/// The runs of a tree, each known by its top. Those that are made from others share what they can.
pub struct Runs {
    by_top: CowMap<RevId, Run>,
    feet: CowMap<Foot, ()>,
    hung: CowMap<Hung, ()>,
    deep: CowMap<Deep, ()>,
}

impl Drop for Runs {
    fn drop(self) {
        let Runs {
            by_top: _,
            feet: _,
            hung: _,
            deep: _,
        } = self;
    }
}

impl Model for Runs {
    ghost use Rattle.model.specs.Map.{from_list};
    ghost use Rattle.revision_runs.specs.Runs.{RunMap, AreFound};

    ghost Value = { RunMap };

    ghost view = { λ a. from_list a.by_top.entries };

    ghost invariant = { λ a. AreFound (from_list a.by_top.entries) a.feet.entries a.hung.entries a.deep.entries };
}

impl Runs {
    /// No runs.
    pub fn new(alloc: Global) -> Runs
        ensures { result ≡ empty }
    {
        Runs {
            by_top: CowMap::new(alloc),
            feet: CowMap::new(alloc),
            hung: CowMap::new(alloc),
            deep: CowMap::new(alloc),
        }
    }

    /// The same runs, which take no memory, but are refused at the largest count of owners.
    pub fn share(&self) -> Result<Runs, AllocError>
        ensures { IfOk result (λ m. m ≡ self.now) }
    {
        let by_top = self.by_top.share()?;
        let feet = self.feet.share()?;
        let hung = self.hung.share()?;
        let deep = self.deep.share()?;
        Ok(Runs {
            by_top,
            feet,
            hung,
            deep,
        })
    }

    /// The run with this top.
    pub fn get(&self, top: RevId) -> Option<Run>
        ensures { result ≡ get self.now top }
    {
        self.by_top.get(&top).copied()
    }

    /// The top of a run with this bottom.
    pub fn ending_at(&self, bottom: RevId) -> Option<RevId>
        ensures some { IfSome result (λ top. EndsAt self.now bottom top) }
        ensures none { result ≡ None → (top : Rev) → EndsAt self.now bottom top → ⊥ }
    {
        let least = Foot { bottom, top: None };
        let Some(foot) = first_from(&self.feet, &least) else {
            return None;
        };
        if !is_same(foot.bottom, bottom) {
            return None;
        }
        foot.top
    }

    /// Of the tops that are children of a fork the one that is nearest to a leaf.
    pub fn nearest_under(&self, fork: RevId) -> Option<RevId>
        ensures some { IfSome result (λ top. IsNearestUnder self.now fork top) }
        ensures none { result ≡ None → (top : Rev) → HangsUnder self.now fork top → ⊥ }
    {
        let least = Hung {
            fork,
            low: 0,
            top: None,
        };
        let Some(hung) = first_from(&self.hung, &least) else {
            return None;
        };
        if !is_same(hung.fork, fork) {
            return None;
        }
        hung.top
    }

    /// The top that is the most steps above the nearest leaf, unless each is a leaf itself.
    pub fn deepest(&self) -> Option<RevId>
        ensures some { IfSome result (λ top. IsDeepest self.now top) }
        ensures none { result ≡ None → (top : Rev) (run : declared.Run) → get self.now top ≡ Some run → run.low ≤ top.generation }
    {
        let Some(deep) = first(&self.deep) else {
            return None;
        };
        Some(deep.top)
    }

    /// With a run in the place of that with its top.
    pub fn with(self, top: RevId, run: Run) -> Result<Runs, AllocError>
        ensures { IfOk result (λ m. m ≡ put self top run) }
    {
        let Some(old) = self.get(top) else {
            return self.with_new(top, run);
        };
        self.with_other(top, old, run)
    }

    /// Without the run with this top.
    pub fn without(self, top: RevId) -> Result<Runs, AllocError>
        ensures { IfOk result (λ m. m ≡ without self top) }
    {
        let Some(run) = self.get(top) else {
            return Ok(self);
        };
        self.without_known(top, run)
    }

    fn with_new(self, top: RevId, run: Run) -> Result<Runs, AllocError>
        requires { get self top ≡ None }
        ensures { IfOk result (λ m. m ≡ put self top run) }
    {
        let Runs {
            by_top,
            feet,
            hung,
            deep,
        } = self;
        Ok(Runs {
            by_top: by_top.into_with(top, run)?,
            feet: entered(feet, Some(foot(top, run)))?,
            hung: entered(hung, hung_key(top, run))?,
            deep: entered(deep, deep_key(top, run))?,
        })
    }

    /// Keys that stay are left where they are.
    fn with_other(self, top: RevId, old: Run, run: Run) -> Result<Runs, AllocError>
        requires { get self top ≡ Some old }
        ensures { IfOk result (λ m. m ≡ put self top run) }
    {
        let Runs {
            by_top,
            feet,
            hung,
            deep,
        } = self;
        Ok(Runs {
            by_top: by_top.into_with(top, run)?,
            feet: moved(feet, Some(foot(top, old)), Some(foot(top, run)))?,
            hung: moved(hung, hung_key(top, old), hung_key(top, run))?,
            deep: moved(deep, deep_key(top, old), deep_key(top, run))?,
        })
    }

    fn without_known(self, top: RevId, run: Run) -> Result<Runs, AllocError>
        requires { get self top ≡ Some run }
        ensures { IfOk result (λ m. m ≡ without self top) }
    {
        let Runs {
            by_top,
            feet,
            hung,
            deep,
        } = self;
        Ok(Runs {
            by_top: by_top.into_without(&top)?,
            feet: struck(feet, Some(foot(top, run)))?,
            hung: struck(hung, hung_key(top, run))?,
            deep: struck(deep, deep_key(top, run))?,
        })
    }
}

fn is_same(one: RevId, other: RevId) -> bool
    ensures { result ≡ same_rev one other }
{
    one == other
}

fn foot(top: RevId, run: Run) -> Foot
    ensures { foot_of top run ≡ Some result }
{
    Foot {
        bottom: run.bottom,
        top: Some(top),
    }
}

fn hung_key(top: RevId, run: Run) -> Option<Hung>
    ensures { result ≡ hung_of top run }
{
    let Some(fork) = run.fork else {
        return None;
    };
    Some(Hung {
        fork,
        low: run.low,
        top: Some(top),
    })
}

fn deep_key(top: RevId, run: Run) -> Option<Deep>
    ensures { result ≡ deep_of top run }
{
    let generation = top.generation();
    if run.low <= generation {
        return None;
    }
    Some(Deep {
        steps: run.low - generation,
        top,
    })
}
