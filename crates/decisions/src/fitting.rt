// Whether a registration fits the records held.
ghost use Rattle.decisions.specs.Views.{refusal_in};
ghost use Rattle.eic.specs.Views.{code_text};
ghost use Rattle.fields.specs.Views.{code_text_or};
ghost use Rattle.records.specs.Views.{registration_texts};
ghost use Rattle.rulebook.specs.Codes.{is_party};
ghost use Rattle.rulebook.specs.Outcomes.{may_name, misfit, other_holder};
ghost use Rattle.rulebook.specs.Texts.{is_blank};
ghost use Rattle.std.specs.Prelude.{◌≡◌, ◌||◌};

use eic::codes::Code;
use grounds::{Ground, Refusal};
use records::{Registration, Status};
use stores::store::Store;

// Object and function are the record's.
#[tactic(auto, unfolding(rulebook::specs::Outcomes::other_holder))]
pub(crate) fn check_holder(new: &Registration, kept: &Registration) -> Result<(), Refusal>
    ensures { refusal_in result ≡ other_holder (registration_texts new.now) (registration_texts kept.now) }
{
    if new.object != kept.object {
        return Err(Refusal::from(Ground::OtherHolder).in_field(4));
    }
    if new.function != kept.function {
        return Err(Refusal::from(Ground::OtherHolder).in_field(5));
    }
    Ok(())
}

// A code may name an active record other than its own, or none.
#[tactic(auto, unfolding(rulebook::specs::Outcomes::may_name))]
fn may_name<S: Store>(store: &S, code: &Code, named: &Option<Code>) -> bool
    ensures { result ≡ may_name (code_text code.now) (code_text_or named.now) (S.entries store.now) }
{
    named.is_none_or(|other| {
        store
            .get(&other)
            .is_some_and(|held| held.status == Status::Active && other != *code)
    })
}

fn is_party_or_none(named: &Option<Code>) -> bool
    ensures { result ≡ (is_blank (code_text_or named.now) || is_party (code_text_or named.now)) }
{
    named.is_none_or(|code| code.is_party())
}

// Display name, parent and responsible party.
#[tactic(auto, unfolding(rulebook::specs::Outcomes::misfit))]
pub(crate) fn check_fit<S: Store>(store: &S, code: &Code, new: &Registration) -> Result<(), Refusal>
    ensures { refusal_in result ≡ misfit (S.entries store.now) (code_text code.now) (registration_texts new.now) }
{
    if store.has_namesake(code, &new.display) {
        return Err(Refusal::from(Ground::NameHeld).in_field(7));
    }
    if !may_name(store, code, &new.parent) {
        return Err(Refusal::from(Ground::NamedCode).in_field(8));
    }
    if !may_name(store, code, &new.responsible) || !is_party_or_none(&new.responsible) {
        return Err(Refusal::from(Ground::NamedCode).in_field(9));
    }
    Ok(())
}
