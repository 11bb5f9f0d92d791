//! Precomputed closures of predictions.

/// A dotted rule: a node, and the step at which the dot stands.
#[derive(Clone, Copy)]
pub struct DottedRule {
    /// The number of the node.
    pub node: usize,
    /// The step.
    pub step: usize,
}

/// The closure of a target's prediction: all that follows from it, whatever the line.
///
/// A node that one dotted rule alone calls may be inlined (`Inlined`): it is part of its caller's closure, and has no
/// closure of its own.
#[derive(Drop)]
pub struct ItemClosure {
    /// The dotted rules at which the target and the nodes inlined into it begin.
    pub dots: Vec<DottedRule>,
    /// The targets with closures of their own that these call.
    pub calls: Vec<usize>,
    /// The dotted rules after calls of nullable targets that may take no symbol.
    pub passes: Vec<DottedRule>,
}
