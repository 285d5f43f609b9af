use crate::ty::Ty;

/// The types of the places of a program that have a type.
#[derive(Drop, Debug)]
pub struct SiteTypes {
    /// The type of each site, at its number.
    pub types: Vec<Ty>,
}
