/// The fields of a row that has three.
#[derive(Clone, Copy)]
pub struct BasisFields<'a> {
    pub day: &'a [u8],
    pub table: &'a [u8],
    pub points: &'a [u8],
}
