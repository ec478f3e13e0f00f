// Products under way, as words inside a bundle and as an enum in a state.
ghost use Rattle.std.specs.Prelude.{◌≡◌, cond, ◌≤◌, ◌-◌};
ghost use Rattle.std.proofs.Math.Option.{some, none};
ghost use Rattle.products.specs.Products.{products_ok, due_product, product_delay, no_product, sooner};
ghost use Rattle.products.specs.Words.{products_in, product_words, nearer_product_words, more_product_words};

use crate::{Product, ProductWords, Products};

fn no_product() -> Product
    ensures { result ≡ no_product }
{
    Product {
        wait: 0,
        low: 0,
        high: 0,
    }
}

#[tactic(auto, unfolding(crate::specs::Words::product_words))]
fn nothing() -> ProductWords
    ensures { result ≡ product_words Products.Nothing }
{
    ProductWords {
        count: 0,
        first: no_product(),
        second: no_product(),
    }
}

#[tactic(auto, unfolding(crate::specs::Words::product_words))]
fn one(first: Product) -> ProductWords
    ensures { result ≡ product_words (Products.One first) }
{
    ProductWords {
        count: 1,
        first,
        second: no_product(),
    }
}

#[tactic(auto, unfolding(crate::specs::Words::product_words))]
fn two(first: Product, second: Product) -> ProductWords
    ensures { result ≡ product_words (Products.Two first second) }
{
    ProductWords {
        count: 2,
        first,
        second,
    }
}

pub fn product_words(p: Products) -> ProductWords
    ensures { result ≡ product_words p }
{
    match p {
        Products::Nothing => nothing(),
        Products::One(first) => one(first),
        Products::Two { first, second } => two(first, second),
    }
}

#[tactic(auto, using(crate::specs::Words::says_nothing, crate::specs::Words::says_one, crate::specs::Words::says_two))]
pub fn products_in(w: ProductWords) -> Products
    ensures { result ≡ products_in w }
{
    if w.count == 0 {
        return Products::Nothing;
    }
    let first = w.first;
    if w.count == 1 {
        return Products::One(first);
    }
    let second = w.second;
    Products::Two { first, second }
}

// Whether refusal 11 does not describe them.
#[tactic(auto, using(crate::specs::Words::says_nothing, crate::specs::Words::says_one, crate::specs::Words::says_two), unfolding(crate::specs::Products::products_ok))]
pub fn products_ok(w: ProductWords) -> bool
    ensures { result ≡ products_ok (products_in w) }
{
    if w.count == 0 {
        return true;
    }
    let first = w.first.wait;
    if w.count == 1 {
        return (1 <= first) & (first <= 2);
    }
    let second = w.second.wait;
    ((1 <= first) & (1 <= second)) & (first as u64 + second as u64 <= 2)
}

// Whether the first falls due in this bundle.
#[tactic(auto, using(crate::specs::Words::says_nothing, crate::specs::Words::due_first), unfolding(crate::specs::Products::due_product))]
pub fn is_due(w: ProductWords) -> bool
    ensures { due_product (products_in w) ≡ cond result (some w.first) none }
{
    if w.count == 0 {
        return false;
    }
    w.first.wait <= 1
}

fn sooner(p: Product) -> Product
    requires { 1 ≤ p.wait }
    ensures { result ≡ sooner p }
{
    Product {
        wait: p.wait - 1,
        low: p.low,
        high: p.high,
    }
}

// What is still under way after this bundle.
#[tactic(auto, using(crate::specs::Words::says_one, crate::specs::Words::says_two), unfolding(crate::specs::Words::nearer_product_words, crate::specs::Products::nearer_products))]
pub fn nearer_products(w: ProductWords) -> ProductWords
    ensures { result ≡ nearer_product_words w }
{
    if w.count == 0 {
        return w;
    }
    let first = w.first;
    let second = w.second;
    if w.count == 1 {
        if first.wait <= 1 {
            return nothing();
        }
        return one(sooner(first));
    }
    if first.wait <= 1 {
        return one(second);
    }
    two(sooner(first), second)
}

// A product more, which lands at the end of the second bundle after this one.
#[tactic(auto, using(crate::specs::Words::says_nothing, crate::specs::Words::says_one, crate::specs::Words::says_two), unfolding(crate::specs::Products::with_one_more))]
pub fn one_more(w: ProductWords, low: u32, high: u32) -> ProductWords
    ensures { result ≡ more_product_words w low high }
{
    if w.count == 0 {
        return one(Product { wait: 2, low, high });
    }
    let first = w.first;
    if w.count == 1 {
        let wait = bundles_left(first.wait);
        return two(first, Product { wait, low, high });
    }
    let second = w.second;
    two(first, second)
}

// How many bundles after a product under way one begun now lands.
fn bundles_left(wait: u32) -> u32
    ensures { result ≡ product_delay - wait }
{
    if 2 < wait {
        return 0;
    }
    2 - wait
}
