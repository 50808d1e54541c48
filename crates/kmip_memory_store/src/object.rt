//! An object: what is known of it, its material, its state and its dates, and the steps of its life.

ghost use Rattle.std.specs.Prelude.{◌≡◌, OnErr};
ghost use Rattle.kmip_memory_store.specs.States.{Takes, born, dated, next, state_number};

use std::alloc::{Allocator, Global};

/// Where an object is in its life (KMIP 1.0, section 3.17).
#[derive(Clone, Copy, Debug, PartialEq, Eq)]
pub enum State {
    /// It isn't in use yet.
    PreActive,
    /// It is in use.
    Active,
    /// It no longer protects anything new.
    Deactivated,
    /// Others may know it.
    Compromised,
    /// Its material is gone.
    Destroyed,
    /// Its material is gone, and others may know it.
    DestroyedCompromised,
}

/// What is done to an object.
#[derive(Clone, Copy, Debug, PartialEq, Eq)]
pub enum Step {
    /// It is put in use, as Activate asks (KMIP 1.0, section 4.18). Denied unless it is Pre-Active.
    Activate,
    /// It is taken out of use, as Revoke asks (section 4.19). Denied unless it is Active.
    Deactivate,
    /// Others may know it, as Revoke says. Denied if that was known.
    Compromise,
    /// Its material is given up, as Destroy asks (section 4.20). Denied if it is Active, and if that was done before.
    Destroy,
}

/// Why an object stays as it is.
#[derive(Clone, Copy, Debug, PartialEq, Eq)]
pub enum Denied {
    /// There never was one of this identifier.
    NotFound,
    /// Its state allows no such step.
    WrongState,
}

impl State {
    /// Its number in a message (KMIP 1.0, section 9.1.3.2.17).
    pub fn number(self) -> u32
        ensures { result ≡ state_number self }
    {
        match self {
            State::PreActive => 1,
            State::Active => 2,
            State::Deactivated => 3,
            State::Compromised => 4,
            State::Destroyed => 5,
            State::DestroyedCompromised => 6,
        }
    }

    // The state that a step leads to, if it is allowed in this one.
    fn next(self, step: Step) -> Option<State>
        ensures { result ≡ next step self }
    {
        match (step, self) {
            (Step::Activate, State::PreActive) => Some(State::Active),
            (Step::Deactivate, State::Active) => Some(State::Deactivated),
            (Step::Compromise, State::PreActive | State::Active | State::Deactivated) => {
                Some(State::Compromised)
            }
            (Step::Destroy, State::PreActive | State::Deactivated) => Some(State::Destroyed),
            (Step::Compromise, State::Destroyed) | (Step::Destroy, State::Compromised) => {
                Some(State::DestroyedCompromised)
            }
            _ => None,
        }
    }
}

/// When what happened to an object, in seconds since 1970 (KMIP 1.0, sections 3.18 to 3.25 and 3.33).
#[derive(Clone, Copy, Debug, PartialEq, Eq)]
pub struct Dates {
    /// When it came: its Initial Date.
    pub initial: i64,
    /// When it was activated, if it was.
    pub activation: Option<i64>,
    /// When it was deactivated, if it was.
    pub deactivation: Option<i64>,
    /// When it was said to be compromised, if it was.
    pub compromise: Option<i64>,
    /// When it was destroyed, if it was.
    pub destroy: Option<i64>,
    /// When any of this happened last.
    pub last_change: i64,
}

impl Dates {
    /// Those of an object that comes now.
    pub fn new(now: i64) -> Dates
        ensures { result ≡ born now }
    {
        Dates {
            initial: now,
            activation: None,
            deactivation: None,
            compromise: None,
            destroy: None,
            last_change: now,
        }
    }

    // A step is taken now.
    fn note(&mut self, step: Step, now: i64)
        ensures { self.new ≡ dated step now self.old }
    {
        self.last_change = now;
        match step {
            Step::Activate => self.activation = Some(now),
            Step::Deactivate => self.deactivation = Some(now),
            Step::Compromise => self.compromise = Some(now),
            Step::Destroy => self.destroy = Some(now),
        }
    }
}

/// An object that a server keeps.
#[derive(Drop)]
pub struct Object<T, A: Allocator = Global> {
    /// What is known of it.
    pub about: T,
    /// Its bytes; none since it was destroyed.
    pub material: Option<Vec<u8, A>>,
    /// Where it is in its life.
    pub state: State,
    /// What happened when.
    pub dates: Dates,
}

impl<T, A: Allocator> Object<T, A> {
    // Takes a step now, if its state allows that.
    pub(crate) fn take(&mut self, step: Step, now: i64) -> Result<(), Denied>
        ensures takes { Takes step now self.old result self.new }
        ensures denied { OnErr result (self.new ≡ self.old) }
    {
        let Some(state) = self.state.next(step) else {
            return Err(Denied::WrongState);
        };
        self.state = state;
        self.dates.note(step, now);
        match step {
            Step::Destroy => self.material = None,
            Step::Activate | Step::Deactivate | Step::Compromise => {}
        }
        Ok(())
    }
}
