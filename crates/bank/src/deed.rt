// What can be asked of the MMD in a slot, and what it answers.
use frame::frame::Operation;
use mmd::event::Event;
use mmd::refusal::MmdRefusal;

#[derive(Clone, Copy, PartialEq, Eq, Debug)]
pub enum Deed {
    // a frame: stores the address; writes, reads, or reads and steps, at the stored address
    Frame(Operation),
    Event(Event),
}

// The data of a read, none where the deed is taken, or why the MMD refuses.
pub type Done = Result<Option<u16>, MmdRefusal>;
