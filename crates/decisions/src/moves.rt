// The table of moves: what an action makes of a record's status.
ghost use Rattle.decisions.specs.Views.{action_of};
ghost use Rattle.records.specs.Views.{is_active};
ghost use Rattle.rulebook.specs.Outcomes.{grounded, moved};
ghost use Rattle.rulebook.specs.Texts.{viewed};
ghost use Rattle.std.specs.Prelude.{◌≡◌, option_map};

use grounds::{Ground, Refusal};
use records::Status;

// Kept: closures are no plainer, `restate(store, dated, |status| match status { .. })`: the office's table is one match.
#[derive(Clone, Copy, PartialEq, Eq, Debug)]
pub(crate) enum Action {
    Create,
    Change,
    Deactivate,
    Reactivate,
}

// The status of the record held, or none, and the action together decide the status after it, or the ground for refusal.
fn move_on(held: Option<Status>, action: Action) -> Result<Status, Ground>
    ensures { viewed is_active result ≡ moved (option_map is_active held) (action_of action) }
{
    match (held, action) {
        (None, Action::Create) => Ok(Status::Active),
        (None, Action::Change | Action::Deactivate | Action::Reactivate) => {
            Err(Ground::NotRegistered)
        }
        (Some(_), Action::Create) => Err(Ground::AlreadyIssued),
        (Some(Status::Active), Action::Change) => Ok(Status::Active),
        (Some(Status::Active), Action::Deactivate) => Ok(Status::Inactive),
        (Some(Status::Active), Action::Reactivate) => Err(Ground::StatusForbids),
        (Some(Status::Inactive), Action::Change | Action::Deactivate) => Err(Ground::StatusForbids),
        (Some(Status::Inactive), Action::Reactivate) => Ok(Status::Active),
    }
}

// The same of the code of field 3, which a refusal tells.
pub(crate) fn status_after(held: Option<Status>, action: Action) -> Result<Status, Refusal>
    ensures { viewed is_active result ≡ grounded 3 (moved (option_map is_active held) (action_of action)) }
{
    move_on(held, action).map_err(|ground| Refusal::from(ground).in_field(3))
}
