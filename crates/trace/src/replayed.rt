// A trace that was replayed.
use station::station::Station;

#[derive(Drop)]
pub struct Replayed<B> {
    pub station: Station<B>,
    // a line for each record
    pub text: Vec<u8>,
}
