//! What a case is.

/// A case: its name, the number of its line, and its orders.
#[derive(Drop)]
pub struct Case {
    pub name: String,
    pub line: usize,
    pub items: Vec<Item>,
}

/// An order, the number of its line, and the content that stands behind it.
#[derive(Drop)]
pub struct Item {
    pub line: usize,
    pub order: Order,
    pub content: Vec<u8>,
}

/// What an order of a case asks for.
pub enum Order {
    /// The content is put under this name.
    Given(String),
    /// A call of the next run fails, counted from 0.
    Fail(Outside, u64),
    /// A file is altered for the next run.
    Alter(String, Alteration),
    /// The program runs with these words.
    Run(Vec<String>),
    /// The last run ended with this status.
    Status(u8),
    /// The last run left this at this place.
    Want(Place, Extent),
}

impl Drop for Order {
    fn drop(self) {
        match self {
            Self::Given(_) => {}
            Self::Fail(_, _) => {}
            Self::Alter(_, _) => {}
            Self::Run(_) => {}
            Self::Status(_) => {}
            Self::Want(_, _) => {}
        }
    }
}

/// Whose calls fail.
#[derive(Clone, Copy)]
pub enum Outside {
    Files,
    Out,
    Err,
}

/// What a file has for one run in the place of its bytes: so many of its first bytes alone, or another byte at a place, counted from 0.
#[derive(Clone, Copy)]
pub enum Alteration {
    Cut(usize),
    Set(usize, u8),
}

/// A sink, or the file of a name.
#[derive(Drop)]
pub enum Place {
    Out,
    Err,
    File(String),
}

/// How the content stands at a place: as the whole of it, so many times in it, or not at all; or all is right there but that nothing is.
#[derive(Clone, Copy)]
pub enum Extent {
    Whole,
    Times(usize),
    Any,
    Absent,
}

impl Order {
    /// Whether content may stand behind the order.
    pub fn has_content(&self) -> bool {
        match self {
            Order::Given(_) => true,
            Order::Want(_, Extent::Whole) => true,
            Order::Want(_, Extent::Times(_)) => true,
            _ => false,
        }
    }
}
