// Why the program stops before its end.
use std::io;
use stores::StoreRefusal;

// What was in the way.
#[derive(Debug, Drop)]
pub enum Failure {
    // Writing failed.
    Output(io::Error),
    // A store refused a call.
    Store(StoreRefusal),
}

impl From<io::Error> for Failure {
    fn from(error: io::Error) -> Failure {
        Failure::Output(error)
    }
}

impl From<StoreRefusal> for Failure {
    fn from(refusal: StoreRefusal) -> Failure {
        Failure::Store(refusal)
    }
}
