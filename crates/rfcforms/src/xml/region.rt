//! The regions of an XML text.

/// An element whose contents can be ABNF.
#[derive(Clone, Copy)]
pub enum Holder {
    /// `<sourcecode>`.
    Sourcecode,
    /// `<artwork>`.
    Artwork,
}

/// The region of an XML text in which a piece of it stands.
#[derive(Clone, Copy)]
pub enum Region {
    /// Outside of elements that hold ABNF.
    Outside,
    /// In such an element.
    Inside(Holder),
    /// In a CDATA section of such an element.
    Cdata(Holder),
}
