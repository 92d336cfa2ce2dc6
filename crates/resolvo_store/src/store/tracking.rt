//! The command that tracks variables of which at most one may be true.
ghost use Rattle.std.specs.Prelude.{◌≡◌, ℕ, ◌+◌, ◌-◌, ◌^◌, ◌&&◌, ◌++◌, [], false, nat_eq};
ghost use Rattle.std.specs.Prelude.{length, is_some, IfOk, OnOk, OnErr, IfErr, Err};
ghost use Rattle.typed_ids.specs.declared.error.StoreError.TheVariants.{OutOfMemory};
ghost use Rattle.variables.specs.Variables.{are_variables_out};
ghost use Rattle.at_most_once.specs.AtMostOne.{is_tracked};
ghost use Rattle.at_most_once.specs.NameTrackers.{tracker_of};
ghost use Rattle.watch_map.specs.ClauseList.{contents, are_ids_out_for};
ghost use Rattle.resolvo_store.specs.Tracking.{origins_with, is_helper_among};
ghost use Rattle.resolvo_store.specs.Known.{may_track};
ghost use Rattle.resolvo_store.specs.Tracking.{helper_needed, IsNewlyTracked, GetsHelper, GetsClauses, GetsTracker};
ghost use Rattle.resolvo_store.specs.Tracking.{Fits, IsRefusal, IsHelperRefusal};

use crate::abstract_store::Abstract;
use crate::answers::Tracked;
use crate::store::ClauseStore;
use crate::store::known::knows_variable;
use at_most_once::NameTrackers;
use id_maps::{IdMap, SolverId};
use providers::{DependencyProvider, Interner};
use std::alloc::Allocator;
use typed_ids::{DenseIndex, StoreError, VariableId};
use variables::{VariableMap, VariableOrigin};
use watch_map::ClauseList;

impl<D: DependencyProvider + Drop> ClauseStore<D> {
    ghost use Rattle.resolvo_store.specs.Command.{AtMostOnce};
    ghost use Rattle.resolvo_store.specs.Answers.{replied, tracked};

    /// Tracks a variable under a name. The clauses are made first, then room for them and for the variable, so that
    /// nothing has changed where this is refused; the helper, if one is needed, is made last.
    pub fn at_most_once(
        &mut self,
        name: D::NameId,
        variable: VariableId,
    ) -> Result<Tracked, StoreError>
        ensures step { ⟦<D as Abstract>⟧.step self.old (AtMostOnce name variable) (replied tracked result) self.new }
        ensures provider { self.new.provider ≡ self.old.provider }
        ensures queue_state { self.new.queue_state ≡ self.old.queue_state }
    {
        if !may_track(self.cache.provider(), &self.variables, name, variable) {
            return Err(StoreError::UnknownId);
        }
        if self.trackers.is_tracked(name, variable) {
            return Ok(Tracked {
                is_new: false,
                clauses: 0,
            });
        }
        let first = self.clauses.len();
        let answer = track(
            self.alloc,
            &mut self.variables,
            &mut self.clauses,
            &mut self.trackers,
            name,
            variable,
        );
        self.clauses
            .forget_false_from(first, &mut self.marks, &self.trail);
        answer
    }
}

/// Whether the provider knows the name, and the variable is one of these that isn't a helper itself.
fn may_track<D: DependencyProvider>(
    provider: &D,
    variables: &VariableMap<D::NameId, D::SolvableId, D::Alloc>,
    name: D::NameId,
    variable: VariableId,
) -> bool
    ensures { result ≡ may_track (D.universe provider.now) variables.now name variable }
{
    provider.knows_name(name)
        && (knows_variable(variables, variable) && !is_helper(variables, variable))
}

/// Whether the variable is one that was made as a helper of tracked ones.
fn is_helper<N: Copy, S: SolverId<A>, A: Allocator + Copy>(
    variables: &VariableMap<N, S, A>,
    variable: VariableId,
) -> bool
    ensures { result ≡ is_helper_among variables.now variable }
{
    if variable.to_index() >= variables.count() {
        return false;
    }
    match variables.origin(variable) {
        VariableOrigin::ForbidMultiple(_) => true,
        _ => false,
    }
}

/// Tracks a variable under a name that doesn't track it, with a helper where one is needed, and adds the clauses of
/// both. All room is made before anything changes, but for the helper's, which is made last.
fn track<N: SolverId<A>, S: SolverId<A>, A: Allocator + Copy>(
    alloc: A,
    variables: &mut VariableMap<N, S, A>,
    clauses: &mut ClauseList<N, A>,
    trackers: &mut NameTrackers<N, A>,
    name: N,
    variable: VariableId,
) -> Result<Tracked, StoreError>
    requires { is_tracked nat_eq (tracker_of N.eq trackers.old name) variable ≡ false }
    ensures tracked { IfOk result (IsNewlyTracked N.eq variables.old trackers.old name variable) }
    ensures variables { OnOk result (GetsHelper N.eq variables.old trackers.old name variable variables.new) }
    ensures clauses { OnOk result (GetsClauses N.eq variables.old trackers.old name variable clauses.old clauses.new) }
    ensures trackers { OnOk result (GetsTracker N.eq variables.old trackers.old name variable trackers.new) }
    ensures same_variables { OnErr result (variables.new ≡ variables.old) }
    ensures same_clauses { OnErr result (contents clauses.new ≡ contents clauses.old) }
    ensures same_trackers { OnErr result (tracker_of N.eq trackers.new ≡ tracker_of N.eq trackers.old) }
    ensures fits { OnOk result (Fits N.eq variables.old trackers.old name variable N.Slots.is_too_large clauses.old) }
    ensures refused { IfErr result
        (IsRefusal N.eq variables.old trackers.old name variable N.Slots.is_too_large N.are_many clauses.old) }
{
    let helper = next_helper(variables, trackers, name, variable)?;
    let mut added = Vec::new(alloc);
    trackers.clauses_for(name, variable, helper, &mut added)?;
    clauses.make_room_forbidden(added.as_slice())?;
    trackers.make_room(name, helper.is_some())?;
    make_helper(variables, name, helper)?;
    trackers.add_reserved(name, variable, helper);
    clauses.push_forbidden_reserved(name, added.as_slice());
    Ok(Tracked {
        is_new: true,
        clauses: added.len(),
    })
}

/// The helper that the variable needs under the name, if it needs one: the variable that comes next.
fn next_helper<N: SolverId<A>, S: SolverId<A>, A: Allocator + Copy>(
    variables: &VariableMap<N, S, A>,
    trackers: &NameTrackers<N, A>,
    name: N,
    variable: VariableId,
) -> Result<Option<VariableId>, StoreError>
    ensures ok { IfOk result (λ helper. helper ≡ helper_needed N.eq variables.now trackers.now name variable) }
    ensures fits { IfOk result (λ helper. (is_some helper && are_variables_out (length variables.now)) ≡ false) }
    ensures err { IfErr result (IsHelperRefusal N.eq variables.now trackers.now name variable) }
{
    if !trackers.needs_helper(name, variable) {
        return Ok(None);
    }
    let next = variables.count();
    if !VariableId::in_range(next) {
        return Err(StoreError::IdSpace);
    }
    Ok(Some(VariableId::from_index(next)))
}

/// Makes the helper, if there is one, which comes next.
fn make_helper<N: SolverId<A>, S: SolverId<A>, A: Allocator + Copy>(
    variables: &mut VariableMap<N, S, A>,
    name: N,
    helper: Option<VariableId>,
) -> Result<(), StoreError>
    requires { (is_some helper && are_variables_out (length variables.old)) ≡ false }
    ensures ok { OnOk result (variables.new ≡ origins_with variables.old name helper) }
    ensures err { OnErr result (variables.new ≡ variables.old) }
    ensures memory { IfErr result (λ e. e ≡ OutOfMemory) }
{
    match helper {
        None => Ok(()),
        Some(_) => match variables.alloc_forbid_multiple_variable(name) {
            Ok(_) => Ok(()),
            Err(e) => Err(e),
        },
    }
}
