ghost use Rattle.std.specs.Prelude.{◌≡◌, [], ◌++◌, OnOk, IsOkUnless};
ghost use Rattle.std.specs.Option.{option_map};
ghost use Rattle.cuwajimo.specs.declared.trouble.Trouble.TheVariants.{Memory as NoMemory};
ghost use Rattle.cuwajimo.specs.Plans.{NothingAsked};
ghost use Rattle.cuwajimo.specs.Calls.{calls_on, calls_off, first_of, CallAdded};

use super::call::Call;
use super::plan::Plan;
use super::trouble::Trouble;
use master::master::Master;
use std::alloc::Global;

/// What stands between two `reset` lines: the building lines, the calls before the first `off`, and the calls from it on.
#[derive(Drop)]
pub struct Case {
    pub plan: Plan,
    pub on: Vec<Call>,
    pub off: Vec<Call>,
}

impl Case {
    /// Nothing asked for, and no call.
    pub(super) fn new(heap: Global) -> Case
        ensures plan { NothingAsked result.plan }
        ensures calls { (calls_on result ≡ []) × (calls_off result ≡ []) }
    {
        Case {
            plan: Plan::new(heap),
            on: Vec::new(heap),
            off: Vec::new(heap),
        }
    }

    /// The first call, if any.
    pub(super) fn first(&self) -> Option<&Call>
        ensures { option_map (λ x. x.now) result ≡ first_of (calls_on self.now ++ calls_off self.now) }
    {
        self.on.first().or(self.off.first())
    }

    /// Adds a call after those that are there.
    pub(super) fn add(&mut self, call: Call) -> Result<(), Trouble>
        ensures added { OnOk result (CallAdded self.old call self.new) }
        ensures memory { IsOkUnless result NoMemory }
    {
        if call.act.is_off() || !self.off.is_empty() {
            self.off.push(call)?;
        } else {
            self.on.push(call)?;
        }
        Ok(())
    }
}

/// A case that is carried out, its master if it has one, and the runtime to read, print and write by.
#[derive(Clone, Copy)]
pub struct CaseRun<'a, 'm> {
    pub(super) rt: &'a HostRuntime,
    pub(super) case: &'a Case,
    pub(super) master: Option<Master<'m>>,
}
