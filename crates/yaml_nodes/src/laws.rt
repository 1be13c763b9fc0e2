//! What holds of the definitions.

ghost use Rattle.yaml_nodes.specs.Laws.{FlowIsUnique, BlockIsUnique, RootIsUnique, PartsAreRead};

/// At most one node stands at the front of tokens, and a document has at most one root.
pub fn nodes_are_unique()
    ensures flow { FlowIsUnique }
    ensures lines { BlockIsUnique }
    ensures root { RootIsUnique }
{}

/// The reading of a text's parts gives its documents exactly where each part is one by the grammar, and else the
/// offset of the first that is none.
pub fn parts_are_read()
    ensures { PartsAreRead }
{}
