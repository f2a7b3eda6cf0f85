//! The blocks of a generated page.
ghost use Rattle.std.specs.Prelude.{◌≡◌, ◌++◌, OnOk, string_bytes};
ghost use Rattle.hm_measure_page.specs.Pages.{chosen, line};

use hm_base::OutOfMemory;

/// What one line of a generated page holds.
#[derive(Clone, Copy)]
pub enum Block {
    Paragraph,
    Items,
    Table,
    Titled,
}

impl Block {
    /// The block that a number of the sequence chooses, by the two bits above its lowest sixteen.
    pub fn chosen_by(number: u32) -> Block
        ensures { result ≡ chosen number }
    {
        match number / 65_536 % 4 {
            0 => Block::Paragraph,
            1 => Block::Items,
            2 => Block::Table,
            _ => Block::Titled,
        }
    }

    /// Appends the block, with `index` in it, and an LF.
    pub fn write(self, page: &mut String, index: u32) -> Result<(), OutOfMemory>
        ensures { OnOk result (string_bytes page.new ≡ string_bytes page.old ++ line self index) }
    {
        match self {
            Block::Paragraph => writeln!(page, "<p>Item {index} &amp; more</p>")?,
            Block::Items => writeln!(page, "<ul><li>{index}</li><li>two</li></ul>")?,
            Block::Table => writeln!(page, "<table><tr><td>{index}</td></tr></table>")?,
            Block::Titled => writeln!(page, "<p title=\"a b\">{index}</p>")?,
        }
        Ok(())
    }
}
