// The register: an office and a store, and the law that holds after every list of calls.
#![tactic(auto)]

ghost use Rattle.decisions.specs.Views.{grant_of};
ghost use Rattle.eic.specs.Views.{office_text};
ghost use Rattle.records.specs.Views.{entry_of};
ghost use Rattle.register.specs.Performing.{Comes, outcome_of};
ghost use Rattle.register.specs.Views.{LookCarries, LooksUp, SubmitCarries, Submits, state_of};
ghost use Rattle.rulebook.specs.Histories.{Reached};
ghost use Rattle.rulebook.specs.Outcomes.{Fitting, judged, roomed};
ghost use Rattle.rulebook.specs.Texts.{viewed};
ghost use Rattle.std.specs.Prelude.{◌≡◌, false, [], is_ok, IfOk};

pub mod calls;

use answers::writing::{write_record, write_refusal};
use decisions::{Grant, decide};
use eic::codes::Code;
use eic::offices::Office;
use grounds::{Ground, Refusal};
use records::Record;
use requests::commands::read_line;
use stores::store::Store;

#[derive(Drop)]
pub struct Register<S> {
    office: Office,
    store: S,
}

// What a call tells of a line: granted or refused, and the length of the answer line.
// Kept: a rule of the project, fixed memory: the answer stands in the caller's buffer, and its length beside the verdict.
#[derive(Clone, Copy)]
pub struct Reply {
    pub verdict: Result<(), Refusal>,
    pub length: usize,
}

impl<S: Store> Register<S> {
    // Opens a register over a store, whatever records it holds.
    pub fn open(office: Office, store: S) -> Register<S>
        ensures office { result.office ≡ office }
        ensures store { result.store ≡ store }
        ensures reached { Reached (state_of S.Store result) [] (state_of S.Store result) }
    {
        Register { office, store }
    }

    // Gives the store back.
    pub fn close(self) -> S
        ensures { result ≡ self.store }
    {
        self.store
    }

    // What a line comes to, room and buffer aside.
    fn judge(&self, line: &[u8]) -> Result<Grant, Refusal>
        ensures told { viewed grant_of result ≡ judged (office_text self.now.office) (S.entries self.now.store) line.now }
        ensures fits { IfOk result (λ g. Fitting (S.entries self.now.store) (grant_of g)) }
    {
        let command = read_line(&self.office, line)?;
        decide(&self.store, &command)
    }

    // Writes what is granted; a new record may meet no room.
    fn carry_out(&mut self, grant: &Grant) -> Result<Record, Refusal>
        requires { Fitting (S.entries self.old.store) (grant_of grant.now) }
        ensures comes { Comes (roomed (S.room self.old.store) (grant_of grant.now)) (state_of S.Store self.old) (viewed entry_of result) (state_of S.Store self.new) }
        ensures refused { is_ok result ≡ false → self.new ≡ self.old }
    {
        match grant {
            Grant::Created(new) | Grant::Revised(new) => {
                self.store.write(new).map_err(|_| Ground::NoRoom)?;
                Ok(*new)
            }
            Grant::Shown(held) => Ok(*held),
        }
    }

    // What a line with an answer buffer of this size comes to.
    fn perform(&mut self, line: &[u8], size: usize) -> Result<Record, Refusal>
        ensures comes { Comes (outcome_of (state_of S.Store self.old) line.now size) (state_of S.Store self.old) (viewed entry_of result) (state_of S.Store self.new) }
        ensures refused { is_ok result ≡ false → self.new ≡ self.old }
    {
        if size < 200 {
            return Err(Ground::Buffer.into());
        }
        let grant = self.judge(line)?;
        self.carry_out(&grant)
    }

    // A request line with a buffer for its answer: granted or refused as the definition says of the state
    // at this moment. A refusal leaves the register as it was. Every history goes on, and the law with it.
    pub fn submit(&mut self, line: &[u8], buffer: &mut [u8]) -> Reply
        ensures answered { Submits S.Store self.old line.now buffer.old result buffer.new self.new }
        ensures refused { is_ok result.verdict ≡ false → self.new ≡ self.old }
        ensures carries { SubmitCarries S.Store self.old line.now buffer.old result buffer.new self.new }
    {
        match self.perform(line, buffer.len()) {
            Ok(held) => Reply {
                verdict: Ok(()),
                length: write_record(&held, buffer),
            },
            Err(refusal) => Reply {
                verdict: Err(refusal),
                length: write_refusal(&refusal, buffer),
            },
        }
    }

    // The look-up of a code: the caller's record is filled with its record, or left as it was. Every history goes
    // on, and the law with it.
    // Kept: a rule of the project: a look-up fills the caller's record or leaves it, and the law says so of histories.
    pub fn look_up(&self, text: &[u8], into: &mut Record) -> Result<(), Refusal>
        ensures looked { LooksUp S.Store self.now text.now (entry_of into.old) result (entry_of into.new) }
        ensures left { is_ok result ≡ false → into.new ≡ into.old }
        ensures carries { LookCarries S.Store self.now text.now (entry_of into.old) result (entry_of into.new) }
    {
        let code = Code::read_for(&self.office, text)?;
        *into = self.store.get(&code).ok_or(Ground::NotRegistered)?;
        Ok(())
    }
}
