// The kinds of an attribute's value, and the byte that stands for each.
ghost use Rattle.sheet_fields.specs.Kinds.{Decodes};

#[derive(Clone, Copy, PartialEq, Eq)]
pub enum ValueKind {
    Unreadable = 0,
    Text = 1,
    Number = 2,
    Numbers = 3,
    Length = 4,
    Color = 5,
    Tries = 6,
    Typed = 7,
}

// A byte that stands for no kind.
#[derive(Clone, Copy)]
pub struct UnknownKind(pub u8);

impl TryFrom<u8> for ValueKind {
    type Error = UnknownKind;

    ghost try_from_gives = { Decodes };

    fn try_from(byte: u8) -> Result<ValueKind, UnknownKind> {
        match byte {
            0 => Ok(ValueKind::Unreadable),
            1 => Ok(ValueKind::Text),
            2 => Ok(ValueKind::Number),
            3 => Ok(ValueKind::Numbers),
            4 => Ok(ValueKind::Length),
            5 => Ok(ValueKind::Color),
            6 => Ok(ValueKind::Tries),
            7 => Ok(ValueKind::Typed),
            _ => Err(UnknownKind(byte)),
        }
    }
}
