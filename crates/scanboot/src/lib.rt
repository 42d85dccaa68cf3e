// The calls: numbers and byte slices in, one packed number out. No function here has a `requires`, and none decides anything.
#![tactic(auto)]

mod packing;

ghost use Rattle.std.specs.Prelude.{◌≡◌, length};
ghost use Rattle.fields.specs.Options.{plain, in_order};
ghost use Rattle.patterns.specs.Row.{options_of};
ghost use Rattle.image.specs.Converting.{converting, measuring, conversion_of, numbers_of_conversion, output_after};
ghost use Rattle.image.specs.Reading.{reading_in, reading_of, numbers_of_reading};
ghost use Rattle.image.specs.Asking.{asking_in, asked_of, numbers_of_asked};
ghost use Rattle.image.specs.Standing.{standing_in};
ghost use Rattle.loader.specs.Loading.{loading_image, loading_coff, loading_of, numbers_of_loading, window_after};
ghost use Rattle.compare.specs.Checking.{checking, numbers_of_verdict};
ghost use Rattle.lines.specs.Listing.{listing, listed_of, numbers_of_listing, buffer_after};
ghost use Rattle.scanboot.specs.Taken.{taken_number};
ghost use Rattle.scanboot.specs.Version.{library_version};
ghost use Rattle.scanboot.specs.Packing.{packed_conversion, packed_reading, packed_asked, packed_addresses, packed_loading, packed_verdict, packed_listing};

// The library's version, as one number.
pub fn scanboot_version() -> u32
    ensures { result ≡ library_version }
{
    66560
}

// Rules 1 to 14; the length that the image would have and the number of kept sections.
pub fn scanboot_measure(file: &[u8]) -> u64
    ensures { result ≡ packed_conversion (numbers_of_conversion (conversion_of (measuring plain file.now))) }
{
    scanboot_measure_with(file, b"")
}

// Rules 1 to 15; the image's length and the number of kept sections.
pub fn scanboot_convert(file: &[u8], out: &mut [u8]) -> u64
    ensures answers { result ≡ packed_conversion (numbers_of_conversion (conversion_of (converting plain file.now (length out.old)))) }
    ensures leaves { out.new ≡ output_after 0 (converting plain file.now (length out.old)) out.old }
{
    scanboot_convert_with(file, out, b"", 0)
}

// Rules 1 to 13, then 15; the text's length.
pub fn scanboot_list(file: &[u8], text: &mut [u8]) -> u64
    ensures answers { result ≡ packed_listing (numbers_of_listing (listed_of (listing file.now (length text.old)))) }
    ensures leaves { text.new ≡ buffer_after (listing file.now (length text.old)) text.old }
{
    packing::listing(lines::listing::list(file, text))
}

// Rules 20 to 27; the entry point and the block count.
pub fn scanboot_read_image(image: &[u8]) -> u64
    ensures { result ≡ packed_reading (numbers_of_reading (reading_of (reading_in plain image.now))) }
{
    scanboot_read_image_with(image, 0)
}

// Rules 20 and 21 of one place of an image; where the bytes of the block that begins there stand, and how many there are.
pub fn scanboot_block_at(image: &[u8], place: u64) -> u64
    ensures { result ≡ packed_asked (numbers_of_asked (asked_of (standing_in plain image.now place))) }
{
    scanboot_block_at_with(image, place, 0)
}

// The same block's two addresses.
pub fn scanboot_block_addresses_at(image: &[u8], place: u64) -> u64
    ensures { result ≡ packed_addresses (numbers_of_asked (asked_of (standing_in plain image.now place))) }
{
    scanboot_block_addresses_at_with(image, place, 0)
}

// Rules 20 to 27, then 30; the place and the size of a block's bytes.
pub fn scanboot_block(image: &[u8], number: u64) -> u64
    ensures { result ≡ packed_asked (numbers_of_asked (asked_of (asking_in plain image.now number))) }
{
    scanboot_block_with(image, number, 0)
}

// The same block's two addresses.
pub fn scanboot_block_addresses(image: &[u8], number: u64) -> u64
    ensures { result ≡ packed_addresses (numbers_of_asked (asked_of (asking_in plain image.now number))) }
{
    scanboot_block_addresses_with(image, number, 0)
}

// Rule 28, then 20 to 27, then 29; the number of bytes placed.
pub fn scanboot_load_image(image: &[u8], base: u64, window: &mut [u8]) -> u64
    ensures answers { result ≡ packed_loading (numbers_of_loading (loading_of (loading_image plain image.now base (length window.old)))) }
    ensures leaves { window.new ≡ window_after (loading_image plain image.now base (length window.old)) base window.old }
{
    scanboot_load_image_with(image, base, window, 0)
}

// Rule 28, then 1 to 13, then 29; the number of bytes placed.
pub fn scanboot_load_coff(file: &[u8], base: u64, window: &mut [u8]) -> u64
    ensures answers { result ≡ packed_loading (numbers_of_loading (loading_of (loading_coff plain file.now base (length window.old)))) }
    ensures leaves { window.new ≡ window_after (loading_coff plain file.now base (length window.old)) base window.old }
{
    scanboot_load_coff_with(file, base, window, b"")
}

// Rules 1 to 13 of the file, 20 to 27 of the image, then 40 and 41.
pub fn scanboot_check(file: &[u8], image: &[u8]) -> u64
    ensures { result ≡ packed_verdict (numbers_of_verdict (checking plain file.now image.now)) }
{
    scanboot_check_with(file, image, b"", 0)
}

// The same calls with options, which C has beside the plain ones. Each is its plain call's parameters and, behind them, a row of patterns where it reads a
// file and an order where it reads or writes an image: rule 17 comes before all others of a call, rule 33 next, and a section's rule 16 before its rule 10.

pub fn scanboot_measure_with(file: &[u8], patterns: &[u8]) -> u64
    ensures { result ≡ packed_conversion (numbers_of_conversion (conversion_of (measuring (options_of patterns.now) file.now))) }
{
    packing::conversion(image::measuring::measure_file(file, patterns))
}

pub fn scanboot_convert_with(file: &[u8], out: &mut [u8], patterns: &[u8], order: u32) -> u64
    ensures answers { result ≡ packed_conversion (numbers_of_conversion (conversion_of (converting (in_order order (options_of patterns.now)) file.now (length out.old)))) }
    ensures leaves { out.new ≡ output_after order (converting (in_order order (options_of patterns.now)) file.now (length out.old)) out.old }
{
    packing::conversion(image::converting::convert(file, out, patterns, order))
}

pub fn scanboot_read_image_with(image: &[u8], order: u32) -> u64
    ensures { result ≡ packed_reading (numbers_of_reading (reading_of (reading_in (in_order order plain) image.now))) }
{
    packing::reading(image::reader::read_in(image, order))
}

pub fn scanboot_block_at_with(image: &[u8], place: u64, order: u32) -> u64
    ensures { result ≡ packed_asked (numbers_of_asked (asked_of (standing_in (in_order order plain) image.now place))) }
{
    packing::asked(image::standing::stands_at(image, place as usize, order))
}

pub fn scanboot_block_addresses_at_with(image: &[u8], place: u64, order: u32) -> u64
    ensures { result ≡ packed_addresses (numbers_of_asked (asked_of (standing_in (in_order order plain) image.now place))) }
{
    packing::addresses(image::standing::stands_at(image, place as usize, order))
}

pub fn scanboot_block_with(image: &[u8], number: u64, order: u32) -> u64
    ensures { result ≡ packed_asked (numbers_of_asked (asked_of (asking_in (in_order order plain) image.now number))) }
{
    packing::asked(image::asking::ask(image, number as usize, order))
}

pub fn scanboot_block_addresses_with(image: &[u8], number: u64, order: u32) -> u64
    ensures { result ≡ packed_addresses (numbers_of_asked (asked_of (asking_in (in_order order plain) image.now number))) }
{
    packing::addresses(image::asking::ask(image, number as usize, order))
}

pub fn scanboot_load_image_with(image: &[u8], base: u64, window: &mut [u8], order: u32) -> u64
    ensures answers { result ≡ packed_loading (numbers_of_loading (loading_of (loading_image (in_order order plain) image.now base (length window.old)))) }
    ensures leaves { window.new ≡ window_after (loading_image (in_order order plain) image.now base (length window.old)) base window.old }
{
    packing::loading(loader::from_image::load_image(image, base as usize, window, order))
}

pub fn scanboot_load_coff_with(file: &[u8], base: u64, window: &mut [u8], patterns: &[u8]) -> u64
    ensures answers { result ≡ packed_loading (numbers_of_loading (loading_of (loading_coff (options_of patterns.now) file.now base (length window.old)))) }
    ensures leaves { window.new ≡ window_after (loading_coff (options_of patterns.now) file.now base (length window.old)) base window.old }
{
    packing::loading(loader::from_coff::load_coff(file, base as usize, window, patterns))
}

pub fn scanboot_check_with(file: &[u8], image: &[u8], patterns: &[u8], order: u32) -> u64
    ensures { result ≡ packed_verdict (numbers_of_verdict (checking (in_order order (options_of patterns.now)) file.now image.now)) }
{
    packing::verdict(compare::checking::check(file, image, patterns, order))
}

// Whether one pattern takes a name.
pub fn scanboot_takes(pattern: &[u8], name: &[u8]) -> u32
    ensures { result ≡ taken_number pattern.now name.now }
{
    packing::taken(patterns::matching::takes_alone(pattern, name))
}
