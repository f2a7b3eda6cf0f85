//! Questions about a name alone, which a flag of its number answers.
ghost use Rattle.std.specs.Prelude.{◌≡◌, ◌<◌, length};
ghost use Rattle.hm_elements.specs.declared.names.TheConstants.{NAME_COUNT};
ghost use Rattle.hm_elements.specs.declared.rows.TheConstants.{FLAGS, FLAG_COUNT};
ghost use Rattle.hm_elements.specs.Attributes as attributes;
ghost use Rattle.hm_elements.specs.Names.{is_among};
ghost use Rattle.hm_elements.specs.Numbers.{text_of};
ghost use Rattle.hm_elements.specs.Omission as omission;
ghost use Rattle.hm_elements.specs.Paths.{blank_parents};
ghost use Rattle.hm_elements.specs.Rows.{bit_at, flags_at, listed_at};
ghost use Rattle.hm_elements.specs.Tables as tables;

use crate::name::Name;
use crate::rows;

/// The place of the flag of `html`, `head` and `body`.
pub(crate) const ROOT: u8 = 0;

/// The place of the flag of void elements.
pub(crate) const VOID: u8 = 1;

/// The place of the flag of elements whose text has references and no tags.
pub(crate) const RCDATA: u8 = 2;

/// The place of the flag of elements whose text is raw.
pub(crate) const RAW: u8 = 3;

/// The place of the flag of elements that no page may have.
pub(crate) const REFUSED: u8 = 4;

/// The place of the flag of headings.
pub(crate) const HEADING: u8 = 5;

/// The place of the flag of sections of a table.
pub(crate) const SECTION: u8 = 6;

/// The place of the flag of cells of a table.
pub(crate) const CELL: u8 = 7;

/// The place of the flag of metadata elements.
pub(crate) const METADATA: u8 = 8;

/// The place of the flag of elements that may not stand in one of their own name.
pub(crate) const UNNESTED: u8 = 9;

/// The place of the flag of elements whose start tags close a paragraph.
pub(crate) const CLOSES_P: u8 = 10;

/// The place of the flag of HTML elements through which no paragraph closes.
pub(crate) const BOUNDARY: u8 = 11;

/// The place of the flag of the same of SVG.
pub(crate) const SVG_BOUNDARY: u8 = 12;

/// The place of the flag of elements at whose edges whitespace isn't seen.
pub(crate) const BLOCK: u8 = 13;

/// The place of the flag of names of SVG.
pub(crate) const SVG: u8 = 14;

/// The place of the flag of elements after whose start tags a line feed is dropped.
pub(crate) const PREFORMATTED: u8 = 15;

/// The place of the flag of elements that have only whitespace as text.
pub(crate) const BLANK_PARENT: u8 = 16;

/// The place of the flag of elements that show no whitespace.
pub(crate) const SPACE_PARENT: u8 = 17;

/// The place of the flag of boolean attributes.
pub(crate) const BOOLEAN: u8 = 18;

/// The place of the flag of attributes that say nothing if they are blank.
pub(crate) const NOTHING_BLANK: u8 = 19;

/// The place of the flag of elements that `head` takes.
pub(crate) const HEAD_TAKER: u8 = 20;

/// The place of the flag of what stands in a `noscript` of `head`.
pub(crate) const NOSCRIPT_CHILD: u8 = 21;

/// The place of the flag of `noscript`.
pub(crate) const NOSCRIPT: u8 = 22;

/// The place of the flag of `div`.
pub(crate) const DIV: u8 = 23;

/// The place of the flag of `dt` and `dd`.
pub(crate) const DESCRIPTION: u8 = 24;

/// The place of the flag of elements before whose start tags `</p>` may be left out.
pub(crate) const PARAGRAPH_BLOCK: u8 = 25;

/// The place of the flag of parents at whose end `</p>` may be left out.
pub(crate) const PARAGRAPH_PARENT: u8 = 26;

/// The flags of each number.
fn flags() -> &'static [u32]
    ensures flags { result.now ≡ FLAGS }
    ensures many { length result.now ≡ NAME_COUNT }
{
    &rows::FLAGS
}

/// The bit of a mask at a place.
#[tactic(auto, unfolding(crate::specs::Rows::bit_at))]
pub(crate) fn has_bit(mask: u32, place: u8) -> bool
    requires { place < 32 }
    ensures { result ≡ bit_at mask place }
{
    mask >> place & 1 == 1
}

/// Whether the name is in the list with this flag.
#[tactic(auto, using(crate::proofs::FlagFacts::flag_named))]
pub(crate) fn is_listed(name: &str, flag: u8) -> bool
    requires { flag < FLAG_COUNT }
    ensures { result ≡ is_among name.now (listed_at flag) }
{
    Name::of(name).is_listed(flag)
}

impl Name {
    /// Whether the name is in the list with this flag.
    #[tactic(auto, using(crate::proofs::FlagFacts::flag_bit))]
    pub(crate) fn is_listed(self, flag: u8) -> bool
        requires { flag < FLAG_COUNT }
        ensures { result ≡ is_among (text_of self.number) (listed_at flag) }
    {
        has_bit(self.flags(), flag)
    }

    /// The flags of the number: a bit for each list.
    #[tactic(auto, using(crate::proofs::FlagFacts::flags_are))]
    fn flags(self) -> u32
        ensures { result ≡ flags_at self.number }
    {
        flags()[self.place()]
    }

    /// Whether the element is `html`, `head` or `body`.
    #[tactic(auto, unfolding(crate::specs::Rows::listed_at, crate::specs::Rows::flags, crate::specs::Tables::is_root))]
    pub fn is_root(self) -> bool
        ensures { result ≡ tables.is_root (text_of self.number) }
    {
        self.is_listed(ROOT)
    }

    /// Whether the HTML element holds nothing and has no end tag (HTML Standard, #elements-2).
    #[tactic(auto, unfolding(crate::specs::Rows::listed_at, crate::specs::Rows::flags, crate::specs::Tables::is_void))]
    pub fn is_void(self) -> bool
        ensures { result ≡ tables.is_void (text_of self.number) }
    {
        self.is_listed(VOID)
    }

    /// Whether the HTML element holds one text, in which character references are read.
    #[tactic(auto, unfolding(crate::specs::Rows::listed_at, crate::specs::Rows::flags, crate::specs::Tables::is_rcdata))]
    pub fn is_rcdata(self) -> bool
        ensures { result ≡ tables.is_rcdata (text_of self.number) }
    {
        self.is_listed(RCDATA)
    }

    /// Whether the HTML element holds one text, in which nothing is read; `script` is one of them.
    #[tactic(auto, unfolding(crate::specs::Rows::listed_at, crate::specs::Rows::flags, crate::specs::Tables::is_raw))]
    pub fn is_raw(self) -> bool
        ensures { result ≡ tables.is_raw (text_of self.number) }
    {
        self.is_listed(RAW)
    }

    /// Whether a page with this element is refused.
    #[tactic(auto, unfolding(crate::specs::Rows::listed_at, crate::specs::Rows::flags, crate::specs::Tables::is_refused))]
    pub fn is_refused(self) -> bool
        ensures { result ≡ tables.is_refused (text_of self.number) }
    {
        self.is_listed(REFUSED)
    }

    /// Whether it is one of `h1` to `h6`.
    #[tactic(auto, unfolding(crate::specs::Rows::listed_at, crate::specs::Rows::flags, crate::specs::Tables::is_heading))]
    pub fn is_heading(self) -> bool
        ensures { result ≡ tables.is_heading (text_of self.number) }
    {
        self.is_listed(HEADING)
    }

    /// Whether the element is a section of a table.
    #[tactic(auto, unfolding(crate::specs::Rows::listed_at, crate::specs::Rows::flags, crate::specs::Tables::is_section))]
    pub fn is_section(self) -> bool
        ensures { result ≡ tables.is_section (text_of self.number) }
    {
        self.is_listed(SECTION)
    }

    /// Whether the element is a cell of a table.
    #[tactic(auto, unfolding(crate::specs::Rows::listed_at, crate::specs::Rows::flags))]
    pub fn is_cell(self) -> bool
        ensures { result ≡ is_among (text_of self.number) tables.cells }
    {
        self.is_listed(CELL)
    }

    /// Whether the element is metadata, which isn't between `head` and `body`.
    #[tactic(auto, unfolding(crate::specs::Rows::listed_at, crate::specs::Rows::flags, crate::specs::Tables::is_metadata))]
    pub fn is_metadata(self) -> bool
        ensures { result ≡ tables.is_metadata (text_of self.number) }
    {
        self.is_listed(METADATA)
    }

    /// Whether the element may not be in one of its own name.
    #[tactic(auto, unfolding(crate::specs::Rows::listed_at, crate::specs::Rows::flags, crate::specs::Tables::is_unnested))]
    pub fn is_unnested(self) -> bool
        ensures { result ≡ tables.is_unnested (text_of self.number) }
    {
        self.is_listed(UNNESTED)
    }

    /// Whether a start tag of this name closes an open paragraph.
    #[tactic(auto, unfolding(crate::specs::Rows::listed_at, crate::specs::Rows::flags, crate::specs::Tables::closes_p))]
    pub fn closes_p(self) -> bool
        ensures { result ≡ tables.closes_p (text_of self.number) }
    {
        self.is_listed(CLOSES_P)
    }

    /// Whether a paragraph is never closed through this open element, of HTML or of SVG.
    #[tactic(auto, unfolding(crate::specs::Rows::listed_at, crate::specs::Rows::flags, crate::specs::Tables::is_boundary))]
    pub fn is_boundary(self, foreign: bool) -> bool
        ensures { result ≡ tables.is_boundary (text_of self.number) foreign }
    {
        if foreign {
            self.is_listed(SVG_BOUNDARY)
        } else {
            self.is_listed(BOUNDARY)
        }
    }

    /// Whether whitespace at the edges of the HTML element isn't seen.
    #[tactic(auto, unfolding(crate::specs::Rows::listed_at, crate::specs::Rows::flags, crate::specs::Tables::is_block))]
    pub fn is_block(self) -> bool
        ensures { result ≡ tables.is_block (text_of self.number) }
    {
        self.is_listed(BLOCK)
    }

    /// Whether SVG has an element of this name that is read.
    #[tactic(auto, unfolding(crate::specs::Rows::listed_at, crate::specs::Rows::flags, crate::specs::Tables::is_svg_name))]
    pub fn is_svg_name(self) -> bool
        ensures { result ≡ tables.is_svg_name (text_of self.number) }
    {
        self.is_listed(SVG)
    }

    /// Whether whitespace is seen as it is in the HTML element.
    #[tactic(auto, unfolding(crate::specs::Rows::listed_at, crate::specs::Rows::flags))]
    pub fn is_preformatted(self) -> bool
        ensures { result ≡ is_among (text_of self.number) tables.preformatted }
    {
        self.is_listed(PREFORMATTED)
    }

    /// Whether a text directly in the HTML element is only whitespace.
    #[tactic(auto, unfolding(crate::specs::Rows::listed_at, crate::specs::Rows::flags))]
    pub fn is_blank_parent(self) -> bool
        ensures { result ≡ is_among (text_of self.number) blank_parents }
    {
        self.is_listed(BLANK_PARENT)
    }

    /// Whether a text of only whitespace isn't seen directly in the HTML element.
    #[tactic(auto, unfolding(crate::specs::Rows::listed_at, crate::specs::Rows::flags))]
    pub fn is_space_parent(self) -> bool
        ensures { result ≡ is_among (text_of self.number) tables.space_parents }
    {
        self.is_listed(SPACE_PARENT)
    }

    /// Whether the HTML element is taken into `head` if no start tag of `body` comes before it.
    #[tactic(auto, unfolding(crate::specs::Rows::listed_at, crate::specs::Rows::flags))]
    pub fn stays_in_head(self) -> bool
        ensures { result ≡ is_among (text_of self.number) omission.head_takers }
    {
        self.is_listed(HEAD_TAKER)
    }

    /// Whether the attribute's value says nothing.
    #[tactic(auto, unfolding(crate::specs::Rows::listed_at, crate::specs::Rows::flags, crate::specs::Tables::is_boolean))]
    pub fn is_boolean(self) -> bool
        ensures { result ≡ tables.is_boolean (text_of self.number) }
    {
        self.is_listed(BOOLEAN)
    }

    /// Whether the attribute says nothing if its value is only whitespace.
    #[tactic(auto, unfolding(crate::specs::Rows::listed_at, crate::specs::Rows::flags))]
    pub fn says_nothing_blank(self) -> bool
        ensures { result ≡ is_among (text_of self.number) attributes.nothing_blank }
    {
        self.is_listed(NOTHING_BLANK)
    }
}
