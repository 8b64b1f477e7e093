// The statuses of changes, by name.

// The status of a change that there is; its number is the one that the bytes have.
#[derive(Clone, Copy, PartialEq, Eq)]
pub enum Status {
    Initiated = 1,
    Running = 2,
    Completed = 3,
    Committed = 4,
    Aborted = 5,
}
