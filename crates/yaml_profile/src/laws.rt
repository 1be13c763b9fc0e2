//! What holds of texts and their documents.

ghost use Rattle.yaml_profile.specs.ReadBack.{PrintedIsOneToken, PrintedIsOnOneLine, PrintedStandsInTexts};
ghost use Rattle.yaml_profile.specs.Laws.{DocumentsAreUnique, FaultIsUnique, ReadOrFaulty, NeverBoth, DocumentsAreRead, FaultIsRead, ShapeIsLeast};

/// A text has one list of documents by the grammar, or one fault, and never both; and the reading that `read`
/// answers is that. `Shape` stands at the least offset of those where no document is.
pub fn texts_have_one_reading()
    ensures documents { DocumentsAreUnique }
    ensures fault { FaultIsUnique }
    ensures either { ReadOrFaulty }
    ensures never_both { NeverBoth }
    ensures documents_are_read { DocumentsAreRead }
    ensures fault_is_read { FaultIsRead }
    ensures shape_is_least { ShapeIsLeast }
{}

/// A printed scalar is one token wherever a scalar may stand, with just its text, and nothing is wrong with it; and it
/// stands on one line. So a text of one value, one map in flow or one item with it is read as that.
pub fn printed_scalars_are_read_back()
    ensures one_token { PrintedIsOneToken }
    ensures one_line { PrintedIsOnOneLine }
    ensures in_texts { PrintedStandsInTexts }
{}
