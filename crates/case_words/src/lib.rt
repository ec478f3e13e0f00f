// The words that a line can start with, and the names that it can hold.
#![tactic(auto)]

ghost use Rattle.std.specs.Prelude.{◌≡◌};
ghost use Rattle.case_words.specs.Names.{look_up, meaning_at, keywords, keyword_of, transfer_kinds, transfer_kind_of, special_names, special_name_of};
ghost use Rattle.case_words.specs.Names.{numbered, other_items, item_of};

use text::numbers::decimal;
use text::table::row_of;

// The first word of a line.
#[derive(Clone, Copy, PartialEq, Eq, Debug)]
pub enum Keyword {
    Case,
    Code,
    OneNumber(OneNumber),
    Stack,
    Private,
    NumberAndWord(NumberAndWord),
    Pred,
    Special,
    Transfer,
    Step,
    Check,
    Write,
    Listing,
    Product,
    Method,
    Held,
    Record,
    Save,
    Resume,
    Restep,
    Interrupt,
    Handler,
    Active,
}

// The keywords that one number follows.
#[derive(Clone, Copy, PartialEq, Eq, Debug)]
pub enum OneNumber {
    Main,
    Local,
    Entry,
    Fetch,
    Base,
    Run,
    RecordBytes,
    ListBytes,
    TableBytes,
    Place,
    Replayed,
}

// The keywords that a number and a word follow.
#[derive(Clone, Copy, PartialEq, Eq, Debug)]
pub enum NumberAndWord {
    Reg,
    Load,
    MainWord,
    LocalWord,
    CacheWord,
}

// The kinds of a waiting transfer.
#[derive(Clone, Copy, PartialEq, Eq, Debug)]
pub enum TransferKind {
    Br,
    Call,
    Block,
    Xret,
}

// The special registers that a case can set.
#[derive(Clone, Copy, PartialEq, Eq, Debug)]
pub enum SpecialName {
    Sl,
    Sh,
    Ss,
    St,
    Srb,
    Sro,
    Sxb,
    Sxo,
}

// An item of a marking.
#[derive(Clone, Copy, PartialEq, Eq, Debug)]
pub enum Item {
    Register(u32),
    Predicate(u32),
    Sl,
    Sh,
    Main,
    Local,
    Stack,
}

// What the row of a keyword means.
#[tactic(auto, unfolding(crate::specs::Names::meaning_from, crate::specs::Names::keywords))]
fn keyword_at(row: usize) -> Option<Keyword>
    ensures { result ≡ meaning_at keywords row }
{
    match row {
        0 => Some(Keyword::Case),
        1 => Some(Keyword::Code),
        2 => Some(Keyword::OneNumber(OneNumber::Main)),
        3 => Some(Keyword::OneNumber(OneNumber::Local)),
        4 => Some(Keyword::Stack),
        5 => Some(Keyword::Private),
        6 => Some(Keyword::OneNumber(OneNumber::Entry)),
        7 => Some(Keyword::OneNumber(OneNumber::Fetch)),
        8 => Some(Keyword::OneNumber(OneNumber::Base)),
        9 => Some(Keyword::NumberAndWord(NumberAndWord::Reg)),
        10 => Some(Keyword::Pred),
        11 => Some(Keyword::Special),
        12 => Some(Keyword::Transfer),
        13 => Some(Keyword::NumberAndWord(NumberAndWord::Load)),
        14 => Some(Keyword::NumberAndWord(NumberAndWord::MainWord)),
        15 => Some(Keyword::NumberAndWord(NumberAndWord::LocalWord)),
        16 => Some(Keyword::NumberAndWord(NumberAndWord::CacheWord)),
        17 => Some(Keyword::OneNumber(OneNumber::Run)),
        18 => Some(Keyword::Step),
        19 => Some(Keyword::Check),
        20 => Some(Keyword::Write),
        21 => Some(Keyword::Listing),
        22 => Some(Keyword::Product),
        23 => Some(Keyword::Method),
        24 => Some(Keyword::Held),
        25 => Some(Keyword::Record),
        26 => Some(Keyword::OneNumber(OneNumber::RecordBytes)),
        27 => Some(Keyword::Save),
        28 => Some(Keyword::Resume),
        29 => Some(Keyword::Restep),
        30 => Some(Keyword::Interrupt),
        31 => Some(Keyword::Handler),
        32 => Some(Keyword::OneNumber(OneNumber::ListBytes)),
        33 => Some(Keyword::OneNumber(OneNumber::TableBytes)),
        34 => Some(Keyword::Active),
        35 => Some(Keyword::OneNumber(OneNumber::Place)),
        36 => Some(Keyword::OneNumber(OneNumber::Replayed)),
        _ => None,
    }
}

pub fn first_word(s: &[u8]) -> Option<Keyword>
    ensures { result ≡ keyword_of s.now }
{
    keyword_at(row_of(
        b"case\ncode\nmain\nlocal\nstack\nprivate\n\
entry\nfetch\nbase\nreg\npred\nspecial\ntransfer\nload\n\
mainword\nlocalword\ncacheword\nrun\nstep\ncheck\nwrite\nlist\nproduct\n\
method\nheld\nrecord\nrecordbytes\nsave\nresume\nrestep\n\
interrupt\nhandler\nlistbytes\ntablebytes\nactive\nplace\nreplayed\n",
        s,
    ))
}

#[tactic(auto, unfolding(crate::specs::Names::meaning_from, crate::specs::Names::transfer_kinds))]
fn transfer_kind_at(row: usize) -> Option<TransferKind>
    ensures { result ≡ meaning_at transfer_kinds row }
{
    match row {
        0 => Some(TransferKind::Br),
        1 => Some(TransferKind::Call),
        2 => Some(TransferKind::Block),
        3 => Some(TransferKind::Xret),
        _ => None,
    }
}

pub fn transfer_kind(s: &[u8]) -> Option<TransferKind>
    ensures { result ≡ transfer_kind_of s.now }
{
    transfer_kind_at(row_of(b"br\ncall\nblock\nxret\n", s))
}

#[tactic(auto, unfolding(crate::specs::Names::meaning_from, crate::specs::Names::special_names))]
fn special_name_at(row: usize) -> Option<SpecialName>
    ensures { result ≡ meaning_at special_names row }
{
    match row {
        0 => Some(SpecialName::Sl),
        1 => Some(SpecialName::Sh),
        2 => Some(SpecialName::Ss),
        3 => Some(SpecialName::St),
        4 => Some(SpecialName::Srb),
        5 => Some(SpecialName::Sro),
        6 => Some(SpecialName::Sxb),
        7 => Some(SpecialName::Sxo),
        _ => None,
    }
}

pub fn special_name(s: &[u8]) -> Option<SpecialName>
    ensures { result ≡ special_name_of s.now }
{
    special_name_at(row_of(b"sl\nsh\nss\nst\nsrb\nsro\nsxb\nsxo\n", s))
}

// A letter and a decimal number up to greatest.
#[tactic(auto, unfolding(crate::specs::Names::numbered))]
pub fn numbered(s: &[u8], letter: u8, greatest: u32) -> Option<u32>
    ensures { result ≡ numbered letter greatest s.now }
{
    let (first, digits) = s.split_first()?;
    if *first != letter {
        return None;
    }
    decimal(digits).filter(|n| *n <= greatest)
}

#[tactic(auto, unfolding(crate::specs::Names::meaning_from, crate::specs::Names::other_items))]
fn other_item_at(row: usize) -> Option<Item>
    ensures { result ≡ meaning_at other_items row }
{
    match row {
        0 => Some(Item::Sl),
        1 => Some(Item::Sh),
        2 => Some(Item::Main),
        3 => Some(Item::Local),
        4 => Some(Item::Stack),
        _ => None,
    }
}

fn other_item(s: &[u8]) -> Option<Item>
    ensures { result ≡ look_up other_items s.now }
{
    other_item_at(row_of(b"sl\nsh\nmain\nlocal\nstack\n", s))
}

#[tactic(auto, unfolding(crate::specs::Names::item_of))]
pub fn marking_item(s: &[u8]) -> Option<Item>
    ensures { result ≡ item_of s.now }
{
    if let Some(n) = numbered(s, b'r', 31) {
        return Some(Item::Register(n));
    }
    if let Some(n) = numbered(s, b'p', 7) {
        return Some(Item::Predicate(n));
    }
    other_item(s)
}
