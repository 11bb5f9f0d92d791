//! Laws of spelling: literals and classes spell at most one thing, and always something.
ghost use Rattle.pegread.specs.CharLaws.{OneChar, SomeChar, NoChar, OneLiteral, SomeLiteral, OneClass, SomeClass};

/// Says that the front of a text spells at most one byte, in one way.
pub fn spells_one_char()
    ensures { OneChar }
{}

/// Says that the front of a text spells a byte exactly where the text is neither empty nor a backslash alone.
pub fn spells_some_char()
    ensures some { SomeChar }
    ensures none { NoChar }
{}

/// Says that a slice spells at most one list of bytes.
pub fn spells_one_literal()
    ensures { OneLiteral }
{}

/// Says that the slice of a literal spells some.
pub fn spells_some_literal()
    ensures { SomeLiteral }
{}

/// Says that a slice spells at most one set.
pub fn spells_one_class()
    ensures { OneClass }
{}

/// Says that the slice of a class spells one.
pub fn spells_some_class()
    ensures { SomeClass }
{}
