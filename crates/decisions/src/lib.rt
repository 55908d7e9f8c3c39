// What a command comes to, of the records held: granted with a record, or refused.
#![tactic(auto)]

ghost use Rattle.decisions.specs.Views.{action_of, grant_of};
ghost use Rattle.eic.specs.Views.{code_text};
ghost use Rattle.fields.specs.Views.{date_text};
ghost use Rattle.records.specs.Views.{entry_of, registration_texts};
ghost use Rattle.requests.specs.Views.{order_of};
ghost use Rattle.rulebook.specs.Outcomes.{decided, moved, restated, revised};
ghost use Rattle.rulebook.specs.Requests.{changes, creates, looks_up};
ghost use Rattle.rulebook.specs.Texts.{viewed};
ghost use Rattle.std.specs.Prelude.{◌≡◌, None, Err};
ghost use Rattle.grounds.specs.declared.Ground.TheVariants.{NotRegistered};

use eic::codes::Code;
use grounds::{Ground, Refusal};
use records::{Record, Registration};
use requests::commands::{Command, Dated};
use stores::store::Store;

mod fitting;
mod moves;

use fitting::{check_fit, check_holder};
use moves::{Action, status_after};

// What a granted command does: it makes a record, changes one, or shows one.
#[derive(Clone, Copy)]
pub enum Grant {
    Created(Record),
    Revised(Record),
    Shown(Record),
}

fn create<S: Store>(store: &S, dated: &Dated, registration: &Registration) -> Result<Grant, Refusal>
    ensures { viewed grant_of result ≡ decided (S.entries store.now) (creates (date_text dated.now.date) (code_text dated.now.code) (registration_texts registration.now)) }
{
    let held = store.get(&dated.code).map(|held| held.status);
    let status = status_after(held, Action::Create)?;
    if store.has_holder(&registration.object, &registration.function) {
        return Err(Refusal::from(Ground::ObjectHasCode).in_field(4));
    }
    check_fit(store, &dated.code, registration)?;
    Ok(Grant::Created(Record {
        code: dated.code,
        status,
        date: dated.date,
        registration: *registration,
    }))
}

// The record that is held, after a change, deactivation or reactivation; its registration is left.
fn restate<S: Store>(store: &S, action: Action, dated: &Dated) -> Result<Record, Refusal>
    requires { moved None (action_of action) ≡ Err NotRegistered }
    ensures { viewed (λ held. revised (entry_of held)) result ≡ restated (S.entries store.now) (action_of action) (date_text dated.now.date) (code_text dated.now.code) }
{
    let held = store.get(&dated.code);
    let status = status_after(held.map(|held| held.status), action)?;
    let Some(held) = held else { unreachable() };
    if dated.date.is_before(&held.date) {
        return Err(Refusal::from(Ground::EarlierDate).in_field(2));
    }
    Ok(Record {
        status,
        date: dated.date,
        ..held
    })
}

fn change<S: Store>(store: &S, dated: &Dated, registration: &Registration) -> Result<Grant, Refusal>
    ensures { viewed grant_of result ≡ decided (S.entries store.now) (changes (date_text dated.now.date) (code_text dated.now.code) (registration_texts registration.now)) }
{
    let held = restate(store, Action::Change, dated)?;
    check_holder(registration, &held.registration)?;
    check_fit(store, &dated.code, registration)?;
    Ok(Grant::Revised(Record {
        registration: *registration,
        ..held
    }))
}

fn show<S: Store>(store: &S, code: &Code) -> Result<Grant, Refusal>
    ensures { viewed grant_of result ≡ decided (S.entries store.now) (looks_up (code_text code.now)) }
{
    store
        .get(code)
        .map(Grant::Shown)
        .ok_or(Refusal::from(Ground::NotRegistered).in_field(2))
}

// What a command comes to, room aside.
pub fn decide<S: Store>(store: &S, command: &Command) -> Result<Grant, Refusal>
    ensures { viewed grant_of result ≡ decided (S.entries store.now) (order_of command.now) }
{
    match command {
        Command::Create(dated, registration) => create(store, dated, registration),
        Command::Change(dated, registration) => change(store, dated, registration),
        Command::Deactivate(dated) => {
            restate(store, Action::Deactivate, dated).map(Grant::Revised)
        }
        Command::Reactivate(dated) => {
            restate(store, Action::Reactivate, dated).map(Grant::Revised)
        }
        Command::LookUp(code) => show(store, code),
    }
}
