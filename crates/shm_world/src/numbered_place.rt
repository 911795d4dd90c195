/// A value beside its number, or what is left of it once it was taken out.
#[derive(Drop)]
pub struct Place<V> {
    pub(crate) number: u64,
    pub(crate) value: Option<V>,
}
