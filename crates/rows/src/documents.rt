//! The files of data that rows name.

ghost use Rattle.std.specs.Prelude.{◌≡◌, option_map};
ghost use Rattle.rows.specs.Documents.{bytes_among, text_among};

use std::str;

/// A file of data: its name without folders, and its bytes.
#[derive(Debug, Drop)]
pub struct Document {
    /// The name.
    pub name: String,
    /// The bytes.
    pub bytes: Vec<u8>,
}

/// The files of data that a program of rows was given.
#[derive(Debug, Drop)]
pub struct Documents {
    /// The files in the order of the arguments.
    pub documents: Vec<Document>,
}

impl Documents {
    /// The bytes of the first file of a name.
    // promise: A name finds the bytes of the first file of this name.
    // mutations: document_of_another_name_found, document_never_found
    #[tactic(auto, unfolding(crate::specs::Documents::bytes_among))]
    pub fn bytes(&self, name: &str) -> Option<&[u8]>
        ensures { option_map (λ b. b.now) result ≡ bytes_among name.now self.now.documents.items }
    {
        for document in &self.documents {
            if document.name.as_str() == name {
                return Some(&document.bytes);
            }
        }
        None
    }

    /// The text of the first file of a name, if its bytes are UTF-8.
    // promise: Exactly bytes that are UTF-8 are given as a text.
    // mutations: text_never_found
    #[tactic(auto, using(crate::proofs::Texts::texts))]
    pub fn text(&self, name: &str) -> Option<&str>
        ensures { option_map (λ t. t.now) result ≡ text_among name.now self.now.documents.items }
    {
        let Some(bytes) = self.bytes(name) else {
            return None;
        };
        match str::from_utf8(bytes) {
            Ok(text) => Some(text),
            Err(_) => None,
        }
    }
}
