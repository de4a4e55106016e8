ghost use Rattle.std.specs.Prelude.{◌≡◌, ◌<◌, ◌↔◌, IsTrue};
ghost use Rattle.vv_class.specs.Class.{IsClass, Flows, does_flow, is_subset, is_within, IsJoin, IsLeastUpperBound};
ghost use Rattle.vv_class.specs.declared.class.AccessClass.{AccessClass};

/// An access class: a secrecy level and a set of secrecy categories, an integrity level and a set of integrity categories.
///
/// Levels are 0 to 255. A set of categories 0 to 63 is kept as the number whose bit k is 1 where k is in it.
#[derive(Clone, Copy, Debug, PartialEq, Eq)]
pub struct AccessClass {
    pub secrecy: u8,
    pub secrecy_cats: u64,
    pub integrity: u8,
    pub integrity_cats: u64,
}

/// Whether what is labelled `a` may flow to where `b` is the label.
pub fn flows(a: &AccessClass, b: &AccessClass) -> bool
    ensures meaning { IsTrue result ↔ Flows a.now b.now }
    ensures value { result ≡ does_flow a.now b.now }
{
    let secrecy = is_within(a.secrecy, a.secrecy_cats, b.secrecy, b.secrecy_cats);
    let integrity = is_within(b.integrity, b.integrity_cats, a.integrity, a.integrity_cats);
    secrecy && integrity
}

fn is_within(level: u8, cats: u64, most: u8, of: u64) -> bool
    ensures { result ≡ is_within level cats most of }
{
    level <= most && is_subset(cats, of)
}

fn is_subset(a: u64, b: u64) -> bool
    ensures { result ≡ is_subset a b }
{
    a & b == a
}

/// The least class into which both flow.
pub fn join(a: &AccessClass, b: &AccessClass) -> AccessClass
    ensures parts { IsJoin a.now b.now result }
    ensures least { IsLeastUpperBound a.now b.now result }
{
    AccessClass {
        secrecy: a.secrecy.max(b.secrecy),
        secrecy_cats: a.secrecy_cats | b.secrecy_cats,
        integrity: a.integrity.min(b.integrity),
        integrity_cats: a.integrity_cats & b.integrity_cats,
    }
}

/// To flow is a partial order of the classes, and `does_flow` is its test.
pub fn order_laws()
    ensures reflexive { (a : AccessClass) → Flows a a }
    ensures antisymmetric { (a b : AccessClass) → IsClass a → IsClass b → Flows a b → Flows b a → a ≡ b }
    ensures transitive { (a b c : AccessClass) → Flows a b → Flows b c → Flows a c }
    ensures tested { (a b : AccessClass) → IsTrue (does_flow a b) ↔ Flows a b }
{}
