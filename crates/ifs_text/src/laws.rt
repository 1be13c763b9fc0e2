//! What holds of printed interfaces.

ghost use Rattle.ifs_text.specs.DocumentBack.{DocumentsAreInterfaces, TextsAreInterfaces};
ghost use Rattle.ifs_text.specs.ReadBack.{PrintedIsItsDocument, PrintedIsReadBack};

/// The text of an interface is read as one document, and its nodes are those that the interface is printed as: each
/// name, number and word comes back as the scalar that was printed. So it is read as just this interface.
pub fn printed_interfaces_are_read_back()
    ensures document { PrintedIsItsDocument }
    ensures interface { PrintedIsReadBack }
{}

/// The document as which an interface is printed has no fault, and is read as just this interface; and so is a text that
/// has this document alone.
pub fn documents_are_interfaces()
    ensures documents { DocumentsAreInterfaces }
    ensures texts { TextsAreInterfaces }
{}
