//! What the tables say of a name, all at once.
ghost use Rattle.std.specs.Prelude.{◌≡◌, length, map};
ghost use Rattle.std.specs.Option.{ForSome};
ghost use Rattle.hm_elements.specs.declared.names.TheConstants.{NAME_COUNT};
ghost use Rattle.hm_elements.specs.Kinds as kinds;
ghost use Rattle.hm_elements.specs.Numbers.{names, number_of, text_of};
ghost use Rattle.hm_elements.specs.Tables as tables;

use crate::class::Class;
use crate::kinds::KINDS;
use crate::known_name::KnownName;
use crate::name::Name;

/// What the tables say of a name of an HTML element.
#[derive(Clone, Copy)]
pub struct Kind {
    /// The name's number.
    pub(crate) number: u8,
    pub class: Class,
    /// One of `h1` to `h6`.
    pub heading: bool,
    /// It may not stand in one of its own name.
    pub unnested: bool,
    /// Its start tag closes an open paragraph (HTML Standard, #parsing-main-inbody).
    pub closes_p: bool,
    /// A paragraph is never closed through it.
    pub boundary: bool,
    /// Whitespace at its edges isn't seen.
    pub block: bool,
    /// It closes before some start tags.
    pub is_closed_by_start: bool,
    /// A `p` that is the innermost element closes before its start tag.
    pub closes_open_p: bool,
    /// It ends with some end tags of other names (#optional-tags).
    pub ends: bool,
    /// A `p` ends with its end tag.
    pub p_ends: bool,
    /// It takes only children of certain names.
    pub has_children: bool,
    /// Where its parent takes any children, it stands only in parents of certain names.
    pub has_parents: bool,
    /// It stands only in parents that take only children of certain names.
    pub bound: bool,
}

/// The kind with each number.
fn kinds() -> &'static [Kind]
    ensures kinds { result.now ≡ map kinds.kind names }
    ensures many { length result.now ≡ NAME_COUNT }
{
    &KINDS
}

/// What the tables say of the name with this number.
#[tactic(auto, using(crate::proofs::KindFacts::kind_at))]
fn kind_at(name: Name) -> &'static Kind
    ensures { result.now ≡ kinds.kind (text_of name.number) }
{
    &kinds()[name.place()]
}

/// What the tables say of the name.
#[tactic(auto, using(crate::proofs::KindFacts::kind_named))]
pub fn kind_of(name: &str) -> Kind
    ensures { result ≡ kinds.kind name.now }
{
    *kind_at(Name::of(name))
}

/// A name of an HTML element, with what the tables say of it: looked up once, and kept.
#[derive(Clone, Copy)]
pub struct Named<'n> {
    name: &'n str,
    kind: &'n Kind,
    ghost known: { kind.now ≡ kinds.kind name.now },
}

impl<'n> Named<'n> {
    /// The name, looked up in the tables.
    #[tactic(auto, using(crate::proofs::KindFacts::kind_named))]
    pub fn of(name: &'n str) -> Named<'n>
        ensures { result.name.now ≡ name.now }
    {
        let kind = kind_at(Name::of(name));
        Named { name, kind }
    }

    /// The name with its kind, which is known from an earlier look-up.
    pub fn known(name: &'n str, kind: &'n Kind) -> Named<'n>
        requires { kind.now ≡ kinds.kind name.now }
        ensures { result.name.now ≡ name.now }
    {
        Named { name, kind }
    }

    /// The number of the name.
    #[tactic(auto, using(crate::proofs::KindFacts::number_in_kind, crate::proofs::Finding::number_below))]
    pub fn number(self) -> Name
        ensures { result.number ≡ number_of self.entry.name.now }
    {
        Name::with(self.kind.number)
    }

    /// The name.
    pub fn name(self) -> &'n str
        ensures { result.now ≡ self.entry.name.now }
    {
        self.name
    }

    /// What the tables say of it.
    pub fn kind(self) -> &'n Kind
        ensures { result.now ≡ kinds.kind self.entry.name.now }
    {
        self.kind
    }

    /// The name as its table holds it, if it is known.
    #[tactic(auto, using(crate::proofs::KindFacts::text_of_known))]
    pub fn known_name(self) -> Option<KnownName>
        ensures { ForSome result (λ t. t.text.now ≡ self.entry.name.now) }
    {
        let name = self.number();
        if name.is_other() {
            return None;
        }
        Some(KnownName::new(name.text()))
    }

    /// Whether the HTML element holds nothing and has no end tag (HTML Standard, #elements-2).
    #[tactic(auto, using(crate::proofs::ClassFacts::void_by_class))]
    pub fn is_void(self) -> bool
        ensures { result ≡ tables.is_void self.entry.name.now }
    {
        self.kind.class.holds_nothing()
    }
}
