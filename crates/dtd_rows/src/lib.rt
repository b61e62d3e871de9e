// Item 4, "DTD files as they come": what the ATTLISTs of one element define, as five sets of attribute numbers. Bit i is the i-th name
// of the text's attributes. Assumes nothing.
#![tactic(auto)]

ghost use Rattle.std.specs.Prelude.{◌≡◌, ◌<◌};
ghost use Rattle.paper.specs.Basics.{most_attributes};
ghost use Rattle.paper.specs.Codes.{kind_of, status_of};
ghost use Rattle.dtd_rows.specs.Rows.{no_row, with_definition};

use paper::{Kind, Status};
use sets::{one, when};

// The attributes that an element has, those that are required, and those of three kinds.
#[derive(Clone, Copy)]
pub struct Row {
    pub allowed: u64,
    pub required: u64,
    pub id: u64,
    pub idref: u64,
    pub idrefs: u64,
}

// No attribute.
pub fn no_row() -> Row
    ensures { result ≡ no_row }
{
    Row {
        allowed: 0,
        required: 0,
        id: 0,
        idref: 0,
        idrefs: 0,
    }
}

// The row with one attribute more.
pub fn with_definition(row: Row, number: usize, kind: Kind, status: Status) -> Row
    requires { number < most_attributes }
    ensures { result ≡ with_definition row number (kind_of kind) (status_of status) }
{
    let alone = one(number as u32);
    Row {
        allowed: row.allowed | alone,
        required: row.required | when(status == Status::Required, alone),
        id: row.id | when(kind == Kind::Id, alone),
        idref: row.idref | when(kind == Kind::Idref, alone),
        idrefs: row.idrefs | when(kind == Kind::Idrefs, alone),
    }
}
