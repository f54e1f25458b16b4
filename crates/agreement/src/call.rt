//! The calls of a panel as data, and its refusals.
ghost use Rattle.std.specs.Prelude.{◌≡◌};
ghost use Rattle.agreement.specs.Calls.{number, told};
ghost use Rattle.agreement.specs.declared.call.Refusal.TheVariants.{NoRoundFits};
ghost use Rattle.agreement.specs.Lists.{with_list};

use process::turn::NoRound;
use std::convert::AsSlice;

// A call with its process or place, and with its cut where it takes one; a look's list is of type L, and a place of
// type P, so that a call of a script holds no place that no line can say.
#[derive(Clone, Copy, PartialEq, Eq, Debug)]
pub enum Call<L, P = usize> {
    Propose(u32, u32, Option<u32>),
    Recover(u32, Option<u32>),
    Look(u32, L, Option<u32>),
    Deliver(P, Option<u32>),
    Again(u32, Option<u32>),
    Lose(P),
    Crash(u32),
}

// A call as a panel makes it.
pub type PanelCall<'a> = Call<&'a [Option<u32>]>;

impl<L: AsSlice<Option<u32>>> Call<L> {
    // The same call, with its list lent.
    pub fn lent(&self) -> PanelCall<'_>
        ensures { with_list (λ x. x.now) result ≡ with_list L.AsSlice.items self.now }
    {
        match self {
            Call::Propose(p, reading, cut) => Call::Propose(*p, *reading, *cut),
            Call::Recover(p, cut) => Call::Recover(*p, *cut),
            Call::Look(p, list, cut) => Call::Look(*p, list.as_slice(), *cut),
            Call::Deliver(place, cut) => Call::Deliver(*place, *cut),
            Call::Again(p, cut) => Call::Again(*p, *cut),
            Call::Lose(place) => Call::Lose(*place),
            Call::Crash(p) => Call::Crash(*p),
        }
    }
}

impl<L> Call<L, u32> {
    // The same call, with its place as a panel counts it.
    pub fn widened(self) -> Call<L>
        ensures { result ≡ self }
    {
        match self {
            Call::Propose(p, reading, cut) => Call::Propose(p, reading, cut),
            Call::Recover(p, cut) => Call::Recover(p, cut),
            Call::Look(p, list, cut) => Call::Look(p, list, cut),
            Call::Deliver(place, cut) => Call::Deliver(place as usize, cut),
            Call::Again(p, cut) => Call::Again(p, cut),
            Call::Lose(place) => Call::Lose(place as usize),
            Call::Crash(p) => Call::Crash(p),
        }
    }
}

// Why a call is refused.
#[derive(Clone, Copy, PartialEq, Eq, Debug)]
pub enum Refusal {
    CutTooLarge,
    NoSuchProcess,
    NoMessage,
    AlreadyUp,
    ProcessDown,
    ProcessDone,
    AlreadyProposed,
    ProcessIdle,
    NotAReading,
    WrongList,
    NoRoundFits,
    EarlyAck,
}

impl Refusal {
    // The number that a caller is told. The format fixes it, and not the order of the variants.
    pub fn number(self) -> u32
        ensures { result ≡ number self }
    {
        match self {
            Refusal::CutTooLarge => 1,
            Refusal::NoSuchProcess => 2,
            Refusal::NoMessage => 3,
            Refusal::AlreadyUp => 4,
            Refusal::ProcessDown => 5,
            Refusal::ProcessDone => 6,
            Refusal::AlreadyProposed => 7,
            Refusal::ProcessIdle => 8,
            Refusal::NotAReading => 9,
            Refusal::WrongList => 10,
            Refusal::NoRoundFits => 11,
            Refusal::EarlyAck => 12,
        }
    }
}

// A look that must enter a round where none fits is refused.
impl From<NoRound> for Refusal {
    ghost from_gives = { λ _ r. r ≡ NoRoundFits };

    fn from(_: NoRound) -> Self {
        Self::NoRoundFits
    }
}

// What a caller is told: 0 and the count of actions, or a refusal's number and no action.
pub fn told(answer: Result<u32, Refusal>) -> (u32, u32)
    ensures { result ≡ told answer }
{
    match answer {
        Ok(count) => (0, count),
        Err(refusal) => (refusal.number(), 0),
    }
}
