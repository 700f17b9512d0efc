//! Laws of the definitions, for the proofs of the crates above. Each is a function with an empty
//! body.

ghost use Rattle.rt_catalog.specs.declared.catalog.Catalog.{Catalog as Tables};
ghost use Rattle.rt_bind.specs.Apart.{RecordsAreApart, CataloguesAreApart, FieldsAreFound};
ghost use Rattle.rt_bind.specs.Keys.{NewKeysAreGiven};

/// What `bind` asks for holds of each record of a text and of each catalogue of a text, and of
/// fields whose names are apart each is found by its name.
pub fn names_are_apart()
    ensures records { RecordsAreApart }
    ensures catalogues { CataloguesAreApart }
    ensures found { FieldsAreFound }
{}

/// A put of a bound change puts the change's new cells under the key that they give, none of whose
/// values is null.
pub fn new_keys_are_given()
    ensures { (c : Tables) → NewKeysAreGiven c }
{}
