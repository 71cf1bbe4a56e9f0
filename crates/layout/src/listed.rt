// What one line of a list asks for.
use crate::faults::ListFault;
use lines::{Mapping, Page};
use reading::three_numbers;

// a page, and what it is to be mapped to
#[derive(Clone, Copy)]
pub(crate) struct Listed {
    pub page: Page,
    pub mapping: Mapping,
}

impl TryFrom<&[u8]> for Listed {
    ghost use Rattle.layout.specs.Steps.{Row};

    type Error = ListFault;

    ghost try_from_gives = { λ row r. Row row.now r };

    fn try_from(row: &[u8]) -> Result<Listed, ListFault> {
        let (page, frame, rights) = three_numbers(row).ok_or(ListFault::Unreadable)?;
        Ok(Listed {
            page: Page::try_from(page)?,
            mapping: Mapping::new(frame, rights)?,
        })
    }
}
