// The office's rulebook: every definition that a contract cites is a chapter of specs/. The calls here
// carry what is proved of the definitions alone.
#![tactic(auto)]

ghost use Rattle.rulebook.specs.Cases.{AllSettled, cases};
ghost use Rattle.rulebook.specs.Sessions.{HistorySettled, SessionSettled, session};
ghost use Rattle.std.specs.Prelude.{◌≡◌, length};

// How many lines the shipped session has; its answers, the examples of the grounds, and what the law reads off
// its history are settled by the definitions.
pub fn worked_session() -> usize
    ensures session { SessionSettled }
    ensures history { HistorySettled }
    ensures count { result ≡ length session }
{
    5
}

// How many worked cases there are; each of them is settled by the definitions.
pub fn worked_cases() -> usize
    ensures settled { AllSettled }
    ensures count { result ≡ length cases }
{
    14
}
