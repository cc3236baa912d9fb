//! What becomes of the ticket or slip of a call that is refused.
use crate::fault::RunnerFault;

// An enum and no Option beside the fault: what became of the ticket or slip is to be matched.
/// Finish, cancel and answer give their ticket or slip back, but spend it with 30 and 32.
#[derive(Drop)]
pub enum Declined<T> {
    Returned(T, RunnerFault),
    Spent(RunnerFault),
}
