// A whole list of calls, each with its own bytes and buffer or record.
ghost use Rattle.eic.specs.Views.{office_text};
ghost use Rattle.register.specs.Calls.{asked_by, event_of, history_of};
ghost use Rattle.register.specs.Views.{state_of, state_with};
ghost use Rattle.rulebook.specs.Histories.{Reached};
ghost use Rattle.rulebook.specs.Lasting.{Carries, Lasting};
ghost use Rattle.std.specs.Prelude.{◌≡◌, [], map};

use super::{Register, Reply};
use eic::offices::Office;
use grounds::Refusal;
use records::Record;
use stores::store::Store;

// A call: what is asked, with a buffer or record of its own, and the answer once it is made.
#[derive(Drop)]
pub enum Call {
    Submit {
        line: Vec<u8>,
        buffer: Vec<u8>,
        reply: Reply,
    },
    LookUp {
        text: Vec<u8>,
        into: Record,
        answer: Result<(), Refusal>,
    },
}

fn make_call<S: Store>(register: &mut Register<S>, call: &mut Call)
    ensures asked { asked_by call.new ≡ asked_by call.old }
    ensures carries { Carries (state_of S.Store register.old) (event_of call.old call.new) (state_of S.Store register.new) }
{
    match call {
        Call::Submit {
            line,
            buffer,
            reply,
        } => *reply = register.submit(line, buffer),
        Call::LookUp { text, into, answer } => *answer = register.look_up(text, into),
    }
}

// Opens a register and makes every call in turn. What was asked is unchanged; every call is answered as the
// definition says of the state at its moment; and from an empty store the law holds of the whole list.
pub fn run<S: Store>(office: Office, store: S, calls: &mut [Call]) -> Register<S>
    ensures asked { map asked_by calls.new ≡ map asked_by calls.old }
    ensures reached { Reached (state_with S.Store (office_text office) store) (history_of calls.old calls.new) (state_of S.Store result) }
    ensures lasting { S.entries store ≡ [] → Lasting (history_of calls.old calls.new) (state_of S.Store result) }
{
    let mut register = Register::open(office, store);
    for call in calls.iter_mut() {
        make_call(&mut register, call);
    }
    register
}
