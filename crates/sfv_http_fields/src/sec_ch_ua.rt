//! The Sec-CH-UA field (User-Agent Client Hints): the brands of a user agent.

ghost use Rattle.std.specs.Prelude.{◌≡◌, IfOk, IfErr, filter_map, map, option_map, vec_items};
ghost use Rattle.sfv_readers.specs.Field.{list_field, input_value, read_text, IsParseError, NeedsMarkUnless};
ghost use Rattle.sfv_http_fields.specs.SecChUa.{string_in, brand_in, brand_of, brand_value, HasBrands, HasBrand};
ghost use Rattle.sfv_http_fields.specs.SecChUa.{AreSoFar};

use sfv::{
    BareItemFromInput, Error, GenericBareItem, KeyRef, OutOfMemory, StringFromInput, Version,
};
use sfv_readers::{IgnoredItems, ListReader, read_list};
use std::alloc::Global;

/// A brand of a user agent.
#[derive(Debug, Drop)]
pub struct Brand<'a> {
    /// The name of the brand.
    pub name: StringFromInput<'a>,
    /// Its version, if the parameter `v` is a String.
    pub version: Option<StringFromInput<'a>>,
}

// Returns the text of a String, or `None` for another kind.
fn text_of(item: BareItemFromInput<'_>) -> Option<StringFromInput<'_>>
    ensures { option_map read_text result ≡ string_in (input_value item.entry) }
{
    match item {
        GenericBareItem::String(text) => Some(text),
        _ => None,
    }
}

/// A reader that collects the brands of a list.
#[derive(Debug, Drop)]
struct BrandReader<'a> {
    brands: Vec<Brand<'a>>,
    // Memory ran out at a brand.
    is_cut: bool,
}

#[tactic(auto, using(sfv_readers::proofs::Puts::last_of_put), unfolding(sfv_readers::specs::Field::last_of))]
impl<'de> ListReader<'de> for BrandReader<'de> {
    type Member = Option<Brand<'de>>;

    type Items = IgnoredItems;

    ghost keeps = { λ _ member head ps. option_map brand_value member ≡ brand_in head ps };

    ghost reads = { λ _ s members. AreSoFar s.is_cut (map brand_value (vec_items s.brands)) (filter_map brand_of members) };

    ghost may_fail = { ⊥ };

    fn item(&self, item: BareItemFromInput<'de>) -> Option<Brand<'de>> {
        let name = text_of(item)?;
        Some(Brand {
            name,
            version: None,
        })
    }

    fn inner_list(&self, _items: IgnoredItems) -> Option<Brand<'de>> {
        None
    }

    fn parameter(
        &self,
        member: &mut Option<Brand<'de>>,
        key: KeyRef<'de>,
        value: BareItemFromInput<'de>,
    ) {
        if key.as_str() == "v" {
            if let Some(brand) = member {
                brand.version = text_of(value);
            }
        }
    }

    fn member(&mut self, member: Option<Brand<'de>>) -> Result<(), OutOfMemory> {
        if let Some(brand) = member {
            if self.brands.push(brand).is_err() {
                self.is_cut = true;
            }
        }
        Ok(())
    }
}

/// Returns the brands of a Sec-CH-UA field, in order. Ignores members that are not a String, and other parameters.
///
/// # Errors
///
/// Returns the error of `Parser::parse` if the input is not a list, or if memory runs out. Memory runs out only if the
/// input contains a backslash, a percent sign or a colon, or has a brand.
pub fn brands<'a>(alloc: Global, input: &'a [u8], version: Version) -> Result<Vec<Brand<'a>>, Error>
    ensures read { IfOk result (λ found. HasBrands version input.now (map brand_value (vec_items found))) }
    ensures rejected { IfErr result (IsParseError version list_field input.now) }
    ensures memory { IfErr result (NeedsMarkUnless (HasBrand version input.now) input.now) }
{
    let none = BrandReader {
        brands: Vec::new(alloc),
        is_cut: false,
    };
    let read = read_list(alloc, input, version, none)?;
    if read.is_cut {
        return Err(Error::from(OutOfMemory));
    }
    Ok(read.brands)
}
