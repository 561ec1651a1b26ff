// The effects of the step table, by name. specs/Table.antt says which row has which effect, and what each effect is.
#![tactic(auto)]

#[derive(Clone, Copy)]
pub enum Rule {
    Ignore,
    Refuse,
    AcceptDisconnect,
    Answer,
    Reset,
    OpenAndConfirm,
    CallAgain,
    Open,
    Rejected,
    RejectedByDisconnect,
    ListenAgain,
    ClosedByPartner,
    ClosedByRejection,
    Confirm,
    HandUp,
    Hold,
    Acknowledge,
    Release,
    FinishedByDisconnect,
    Finished,
}
