// A run: the station after a list of calls, and their answers in order.
use crate::station::Station;
use call::answer::Answer;

#[derive(Drop)]
pub struct Run<B> {
    pub station: Station<B>,
    pub answers: Vec<Answer>,
}
