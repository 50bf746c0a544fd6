use crate::fault::LayoutFault;

// A refused layout: why, and its bytes as they were.
// Stays: what comes back has a name of its own for each kind of call; one type for all would call cells, layouts and searches the same.
#[derive(Drop)]
pub struct Refused {
    pub fault: LayoutFault,
    pub layout: Vec<u8>,
}
