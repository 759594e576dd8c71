// The meaning of a call stands in specs/; here is what an engine shows.
#![tactic(auto)]

ghost use Rattle.std.specs.Prelude.{◌≡◌, ◌≤◌};
ghost use Rattle.engine_value.specs.Engine.{max_points};
ghost use Rattle.conditions.specs.Conditions.{all_conditions};
ghost use Rattle.call.specs.Shown.{standing_in, standings_in, constraint_count_in, constraint_in};
ghost use Rattle.call.specs.View.{shown_view};

use adhesion::{MAX_CONSTRAINTS, TemporaryConstraint};
use engine_value::{Engine, MAX_POINTS};
use position::Standing;

// What an engine shows: the state's code, whether AD is requested, the nine conditions as a number (condition 0 the least
// significant bit), how many points the journey has, where each stands: 0 not used, 1 targeted, 2 reached, 3 passed; and how
// many rows of slippery rail there are. Numbers and an array, for it is a struct of the C interface.
#[repr(C)]
#[derive(Clone, Copy)]
pub struct Shown {
    pub state: u8,
    pub request: bool,
    pub conditions: u16,
    pub point_count: u8,
    pub standings: [u8; MAX_POINTS],
    pub constraint_count: u8,
}

// Where point k stands.
fn standing(e: &Engine, k: usize) -> u8
    ensures { result ≡ standing_in e.now k }
{
    let s = if k < position::points_loaded(e.load) as usize {
        position::standing_of(e.progress, k as u8)
    } else {
        Standing::Unused
    };
    u8::from(s)
}

// Where each point stands.
fn standings(e: &Engine) -> [u8; MAX_POINTS]
    ensures { result ≡ standings_in e.now max_points }
{
    std::array::from_fn(|k| standing(e, k))
}

// How many rows of slippery rail there are, whatever the engine's count says: the array holds 31.
fn constraint_count(e: &Engine) -> u8
    ensures { result ≡ constraint_count_in e.now }
{
    e.adhesion.count.min(MAX_CONSTRAINTS as u32) as u8
}

// Row k of slippery rail; blank from their count on.
pub fn constraint(e: &Engine, k: usize) -> TemporaryConstraint
    ensures { result ≡ constraint_in e.now k }
{
    if k < usize::from(constraint_count(e)) {
        e.adhesion.constraints[k]
    } else {
        TemporaryConstraint::default()
    }
}

#[tactic(auto, using(crate::proofs::Rows::nine_most), unfolding(crate::specs::Call::conditions_in))]
pub fn show(e: &Engine) -> Shown
    ensures value { result ≡ shown_view e.now }
    ensures nine { result.conditions ≤ all_conditions }
{
    Shown {
        state: e.control.state,
        request: e.control.request,
        conditions: conditions::conditions(e).number() as u16,
        point_count: position::points_loaded(e.load),
        standings: standings(e),
        constraint_count: constraint_count(e),
    }
}
