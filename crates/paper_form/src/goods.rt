ghost use Rattle.std.specs.Prelude.{◌≡◌, true, IfSome};
ghost use Rattle.paper_form.specs.Ranges.{is_line_in_range};
ghost use Rattle.std.specs.List.{list_all};
ghost use Rattle.hall_units.specs.Grams.{milligrams_of};
ghost use Rattle.book_words.specs.Names.{bytes_of, is_name_byte, is_name_shape, name_of};
ghost use Rattle.paper_form.specs.Papers.{is_density, are_goods_in_range};
ghost use Rattle.paper_form.specs.Lines.{fields_left, goods_line, quantity_line, goods_of, where_it, unit_in, density_in, row_in};

use crate::fields::{labelled, last_labelled, next_field};
use crate::types::{Goods, Line};
use crate::values::{read_density, read_row, read_unit};
use annex_tables::{MAX_NOMINAL, MIN_NOMINAL};
use book_words::{Name, Unit};
use hall_limits::{MAX_DENSITY, MAX_ROWS, MIN_DENSITY, NAME_BYTES};
use hall_units::read_grams;
use reference_test::UNIT_DENSITY;

// Whether a byte may stand behind the first of a name.
fn is_in_names(byte: u8) -> bool
    ensures { result ≡ is_name_byte byte }
{
    byte.is_ascii_alphanumeric() || byte == b'-' || byte == b'_' || byte == b'.'
}

// Whether all bytes may.
fn are_in_names(bytes: &[u8]) -> bool
    ensures { result ≡ list_all is_name_byte bytes.now }
{
    bytes.iter().all(|byte| is_in_names(*byte))
}

// Whether some bytes have the shape of a new name.
fn has_name_shape(bytes: &[u8]) -> bool
    ensures { result ≡ is_name_shape bytes.now }
{
    match bytes.split_first() {
        None => false,
        Some((first, rest)) => {
            first.is_ascii_alphanumeric() && are_in_names(rest) && rest.len() < NAME_BYTES
        }
    }
}

// Whether goods of a unit may have a density in mg a litre.
fn is_density(unit: Unit, density: u32) -> bool
    ensures { result ≡ is_density unit density }
{
    match unit {
        Unit::Mass => density == UNIT_DENSITY,
        Unit::Volume => MIN_DENSITY <= density && density <= MAX_DENSITY,
    }
}

// Whether what is said of the goods is within the limits.
fn are_in_range(goods: &Goods) -> bool
    ensures { result ≡ are_goods_in_range goods.now }
{
    has_name_shape(goods.batch.as_bytes())
        && has_name_shape(goods.product.as_bytes())
        && MIN_NOMINAL <= goods.nominal
        && goods.nominal <= MAX_NOMINAL
        && is_density(goods.unit, goods.density)
        && 1 <= goods.row
        && goods.row <= MAX_ROWS
}

// The fields of the line of a batch that tell it.
#[derive(Clone, Copy)]
struct GoodsFields<'a> {
    batch: &'a [u8],
    product: &'a [u8],
    nominal: &'a [u8],
    unit: &'a [u8],
    density: &'a [u8],
    row: &'a [u8],
}

// What these fields tell, where it is within the limits.
fn checked_goods(fields: &GoodsFields) -> Option<Goods>
    ensures range { IfSome result (λ goods. are_goods_in_range goods ≡ true) }
    ensures value { result ≡ where_it are_goods_in_range (goods_of (name_of fields.now.batch.now)
        (name_of fields.now.product.now) (milligrams_of fields.now.nominal.now)
        (unit_in fields.now.unit.now) (density_in fields.now.density.now)
        (row_in fields.now.row.now)) }
{
    let goods = Goods {
        batch: Name::new(fields.batch)?,
        product: Name::new(fields.product)?,
        nominal: read_grams(fields.nominal).ok()?,
        unit: read_unit(fields.unit)?,
        density: read_density(fields.density)?,
        row: read_row(fields.row)?,
    };
    if !are_in_range(&goods) {
        return None;
    }
    Some(goods)
}

// The quantity of goods of a batch and a product, by what is left behind these.
fn read_quantity(batch: &[u8], product: &[u8], left: &[u8]) -> Option<Goods>
    ensures value { result ≡ quantity_line batch.now product.now (fields_left left.now) }
    ensures range { IfSome result (λ goods. are_goods_in_range goods ≡ true) }
{
    let (nominal, left) = labelled(b"nominal", left)?;
    let (unit, left) = labelled(b"unit", left)?;
    let (density, left) = labelled(b"density", left)?;
    let row = last_labelled(b"row", left)?;
    checked_goods(&GoodsFields {
        batch,
        product,
        nominal,
        unit,
        density,
        row,
    })
}

/// `batch B product P nominal G unit U density G row N`, without its first word.
pub fn read_goods(left: &[u8]) -> Option<Line>
    ensures value { result ≡ goods_line (fields_left left.now) }
    ensures range { IfSome result (λ line. is_line_in_range line ≡ true) }
{
    let (batch, left) = next_field(left)?;
    let (product, left) = labelled(b"product", left)?;
    let goods = read_quantity(batch, product, left)?;
    Some(Line::Goods(goods))
}
