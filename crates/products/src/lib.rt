// Products under way: what a multiply has begun, and sl and sh do not show yet.
// Open first: specs/Products.antt, then words.rt.
#![tactic(auto)]

pub mod words;

// A product that lands after so many bundles. The two words do not stand side by side: as one number of 64 bits they would be put together
// and taken apart in every bundle.
#[derive(Clone, Copy)]
pub struct Product {
    pub low: u32,
    pub wait: u32,
    pub high: u32,
}

// The products under way. Of two the second's wait is counted from the landing of the first, so that they have one form.
#[derive(Clone, Copy)]
pub enum Products {
    Nothing,
    One(Product),
    Two { first: Product, second: Product },
}

// The same as words. count: 0 none, 1 the first, and any other both. A number and no enum, as it is copied in every bundle.
#[derive(Clone, Copy)]
pub struct ProductWords {
    pub count: u32,
    pub first: Product,
    pub second: Product,
}
