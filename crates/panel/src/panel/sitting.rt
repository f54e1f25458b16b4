//! Calls made from data.
ghost use Rattle.std.specs.Prelude.{◌≡◌, min, length, take};
ghost use Rattle.agreement.specs.Causes.{Answered};
ghost use Rattle.panel.specs.Panels.{outcome_in, state_in};
ghost use Rattle.panel.specs.Sittings.{Sat};

use super::Panel;
use agreement::call::{Call, PanelCall, Refusal};
use process::message::Message;
use quorum::QuorumRule;
use store::Store;
use tray::Tray;

impl<S: Store, R: QuorumRule> Panel<S, R> {
    // Makes one call. It is accepted if there is no cause against it, and else refused for the cause with the
    // lowest number, and then nothing has changed. Calls are data, and no closures, so that a promise can speak of
    // every list of them.
    pub fn call(&mut self, tray: &mut Tray<Message>, call: &PanelCall) -> Result<u32, Refusal>
        ensures { Answered call.now (state_in R.QuorumRule S.Store self.old tray.old) (outcome_in R.QuorumRule S.Store result self.new tray.new) }
    {
        match *call {
            Call::Propose(p, reading, cut) => self.propose(tray, p, reading, cut),
            Call::Recover(p, cut) => self.recover(tray, p, cut),
            Call::Look(p, list, cut) => self.look(tray, p, list, cut),
            Call::Deliver(place, cut) => self.deliver(tray, place, cut),
            Call::Again(p, cut) => self.again(tray, p, cut),
            Call::Lose(place) => self.lose(tray, place),
            Call::Crash(p) => self.crash(p),
        }
    }

    // Makes as many of the calls, in order, as there are places for their answers. From a fresh panel and an
    // empty tray, all that is seen meanwhile agrees.
    pub fn sit(
        &mut self,
        tray: &mut Tray<Message>,
        calls: &[PanelCall],
        answers: &mut [Result<u32, Refusal>],
    ) -> usize
        ensures count { result ≡ min (length calls.now) (length answers.old) }
        ensures sat { Sat (take result calls.now) (state_in R.QuorumRule S.Store self.old tray.old) (state_in R.QuorumRule S.Store self.new tray.new) answers.old answers.new }
    {
        let count = calls.len().min(answers.len());
        // The answers by their index: after a zip with `iter_mut` nothing is known of them.
        for (i, call) in calls[..count].iter().enumerate() {
            answers[i] = self.call(tray, call);
        }
        count
    }
}
