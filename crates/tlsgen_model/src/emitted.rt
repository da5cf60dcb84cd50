//! Files of a written crate: where each is, and its text.
ghost use Rattle.std.specs.Prelude.{◌≡◌, IfOk};
ghost use Rattle.tlsgen_model.specs.Answered.{function_of, trait_of};
ghost use Rattle.tlsgen_model.specs.Paths.{answers_path, code_path, path_of, specs_path};

use crate::plan::Message;
use std::alloc::{AllocError, Global};

/// A file that is written.
#[derive(Drop)]
pub struct Written {
    /// Its path in the crate's folder, such as `src/leaf_node.rt`.
    pub path: String,
    pub text: String,
}

/// A function whose goals have answers.
#[derive(Clone, Copy)]
pub enum Answered {
    Writes,
    Appends,
    Reads,
    Splits,
    Validates,
}

impl Answered {
    /// The trait that has it.
    pub fn of_trait(self) -> &'static str
        ensures { result.now ≡ trait_of self }
    {
        match self {
            Answered::Writes | Answered::Appends => "Serialize",
            Answered::Reads => "Deserialize",
            Answered::Splits => "DeserializeBytes",
            Answered::Validates => "Validate",
        }
    }

    /// Its name.
    pub fn function(self) -> &'static str
        ensures { result.now ≡ function_of self }
    {
        match self {
            Answered::Writes => "tls_serialize",
            Answered::Appends => "tls_serialize_into",
            Answered::Reads => "tls_deserialize",
            Answered::Splits => "tls_deserialize_bytes",
            Answered::Validates => "tls_validate_prefix",
        }
    }
}

impl Written {
    /// A file with this path.
    pub fn new(alloc: Global, path: &str, text: String) -> Result<Written, AllocError>
        ensures path { IfOk result (λ file. path_of file ≡ path.now) }
        ensures text { IfOk result (λ file. file.text ≡ text) }
    {
        let path = String::from_str(alloc, path)?;
        Ok(Written { path, text })
    }

    /// The code of a message.
    pub fn code(alloc: Global, message: &Message, text: String) -> Result<Written, AllocError>
        ensures path { IfOk result (λ file. path_of file ≡ code_path message.now) }
        ensures text { IfOk result (λ file. file.text ≡ text) }
    {
        let module = message.module.as_str();
        let path = format!(in alloc; "src/{module}.rt")?;
        Ok(Written { path, text })
    }

    /// The definitions of a message.
    pub fn definitions(
        alloc: Global,
        message: &Message,
        text: String,
    ) -> Result<Written, AllocError>
        ensures path { IfOk result (λ file. path_of file ≡ specs_path message.now) }
        ensures text { IfOk result (λ file. file.text ≡ text) }
    {
        let name = message.name.as_str();
        let path = format!(in alloc; "specs/{name}.antt")?;
        Ok(Written { path, text })
    }

    /// The answers of one function of a message.
    pub fn answers(
        alloc: Global,
        message: &Message,
        function: Answered,
        text: String,
    ) -> Result<Written, AllocError>
        ensures path { IfOk result (λ file. path_of file
            ≡ answers_path message.now (trait_of function) (function_of function)) }
        ensures text { IfOk result (λ file. file.text ≡ text) }
    {
        let name = message.name.as_str();
        let module = message.module.as_str();
        let of_trait = function.of_trait();
        let called = function.function();
        let path = format!(in alloc; "proofs/{module}/{name}{of_trait}/{called}/Answers.antt")?;
        Ok(Written { path, text })
    }
}
