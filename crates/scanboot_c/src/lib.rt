// What C calls: each function of `scanboot` under its own name, with its own clauses, and no code besides.
#![tactic(auto)]

ghost use Rattle.std.specs.Prelude.{◌≡◌, length};
ghost use Rattle.fields.specs.Options.{plain, in_order};
ghost use Rattle.patterns.specs.Row.{options_of};
ghost use Rattle.image.specs.Converting.{converting, measuring, conversion_of, numbers_of_conversion, output_after};
ghost use Rattle.image.specs.Reading.{reading_in, reading_of, numbers_of_reading};
ghost use Rattle.image.specs.Asking.{asking_in, asked_of, numbers_of_asked};
ghost use Rattle.image.specs.Standing.{standing_in};
ghost use Rattle.loader.specs.Loading.{loading_image, loading_coff, loading_of, numbers_of_loading, window_after};
ghost use Rattle.compare.specs.Checking.{checking, numbers_of_verdict};
ghost use Rattle.lines.specs.Listing.{listing, listed_of, numbers_of_listing, buffer_after};
ghost use Rattle.scanboot.specs.Taken.{taken_number};
ghost use Rattle.scanboot.specs.Version.{library_version};
ghost use Rattle.scanboot.specs.Packing.{packed_conversion, packed_reading, packed_asked, packed_addresses, packed_loading, packed_verdict, packed_listing};

#[unsafe(no_mangle)]
pub extern "C" fn scanboot_version() -> u32
    ensures { result ≡ library_version }
{
    scanboot::scanboot_version()
}

#[unsafe(no_mangle)]
pub extern "C" fn scanboot_measure(file: &[u8]) -> u64
    ensures { result ≡ packed_conversion (numbers_of_conversion (conversion_of (measuring plain file.now))) }
{
    scanboot::scanboot_measure(file)
}

#[unsafe(no_mangle)]
pub extern "C" fn scanboot_convert(file: &[u8], out: &mut [u8]) -> u64
    ensures answers { result ≡ packed_conversion (numbers_of_conversion (conversion_of (converting plain file.now (length out.old)))) }
    ensures leaves { out.new ≡ output_after 0 (converting plain file.now (length out.old)) out.old }
{
    scanboot::scanboot_convert(file, out)
}

#[unsafe(no_mangle)]
pub extern "C" fn scanboot_list(file: &[u8], text: &mut [u8]) -> u64
    ensures answers { result ≡ packed_listing (numbers_of_listing (listed_of (listing file.now (length text.old)))) }
    ensures leaves { text.new ≡ buffer_after (listing file.now (length text.old)) text.old }
{
    scanboot::scanboot_list(file, text)
}

#[unsafe(no_mangle)]
pub extern "C" fn scanboot_read_image(image: &[u8]) -> u64
    ensures { result ≡ packed_reading (numbers_of_reading (reading_of (reading_in plain image.now))) }
{
    scanboot::scanboot_read_image(image)
}

#[unsafe(no_mangle)]
pub extern "C" fn scanboot_block_at(image: &[u8], place: u64) -> u64
    ensures { result ≡ packed_asked (numbers_of_asked (asked_of (standing_in plain image.now place))) }
{
    scanboot::scanboot_block_at(image, place)
}

#[unsafe(no_mangle)]
pub extern "C" fn scanboot_block_addresses_at(image: &[u8], place: u64) -> u64
    ensures { result ≡ packed_addresses (numbers_of_asked (asked_of (standing_in plain image.now place))) }
{
    scanboot::scanboot_block_addresses_at(image, place)
}

#[unsafe(no_mangle)]
pub extern "C" fn scanboot_block(image: &[u8], number: u64) -> u64
    ensures { result ≡ packed_asked (numbers_of_asked (asked_of (asking_in plain image.now number))) }
{
    scanboot::scanboot_block(image, number)
}

#[unsafe(no_mangle)]
pub extern "C" fn scanboot_block_addresses(image: &[u8], number: u64) -> u64
    ensures { result ≡ packed_addresses (numbers_of_asked (asked_of (asking_in plain image.now number))) }
{
    scanboot::scanboot_block_addresses(image, number)
}

#[unsafe(no_mangle)]
pub extern "C" fn scanboot_load_image(image: &[u8], base: u64, window: &mut [u8]) -> u64
    ensures answers { result ≡ packed_loading (numbers_of_loading (loading_of (loading_image plain image.now base (length window.old)))) }
    ensures leaves { window.new ≡ window_after (loading_image plain image.now base (length window.old)) base window.old }
{
    scanboot::scanboot_load_image(image, base, window)
}

#[unsafe(no_mangle)]
pub extern "C" fn scanboot_load_coff(file: &[u8], base: u64, window: &mut [u8]) -> u64
    ensures answers { result ≡ packed_loading (numbers_of_loading (loading_of (loading_coff plain file.now base (length window.old)))) }
    ensures leaves { window.new ≡ window_after (loading_coff plain file.now base (length window.old)) base window.old }
{
    scanboot::scanboot_load_coff(file, base, window)
}

#[unsafe(no_mangle)]
pub extern "C" fn scanboot_check(file: &[u8], image: &[u8]) -> u64
    ensures { result ≡ packed_verdict (numbers_of_verdict (checking plain file.now image.now)) }
{
    scanboot::scanboot_check(file, image)
}

#[unsafe(no_mangle)]
pub extern "C" fn scanboot_measure_with(file: &[u8], patterns: &[u8]) -> u64
    ensures { result ≡ packed_conversion (numbers_of_conversion (conversion_of (measuring (options_of patterns.now) file.now))) }
{
    scanboot::scanboot_measure_with(file, patterns)
}

#[unsafe(no_mangle)]
pub extern "C" fn scanboot_convert_with(
    file: &[u8],
    out: &mut [u8],
    patterns: &[u8],
    order: u32,
) -> u64
    ensures answers { result ≡ packed_conversion (numbers_of_conversion (conversion_of (converting (in_order order (options_of patterns.now)) file.now (length out.old)))) }
    ensures leaves { out.new ≡ output_after order (converting (in_order order (options_of patterns.now)) file.now (length out.old)) out.old }
{
    scanboot::scanboot_convert_with(file, out, patterns, order)
}

#[unsafe(no_mangle)]
pub extern "C" fn scanboot_read_image_with(image: &[u8], order: u32) -> u64
    ensures { result ≡ packed_reading (numbers_of_reading (reading_of (reading_in (in_order order plain) image.now))) }
{
    scanboot::scanboot_read_image_with(image, order)
}

#[unsafe(no_mangle)]
pub extern "C" fn scanboot_block_at_with(image: &[u8], place: u64, order: u32) -> u64
    ensures { result ≡ packed_asked (numbers_of_asked (asked_of (standing_in (in_order order plain) image.now place))) }
{
    scanboot::scanboot_block_at_with(image, place, order)
}

#[unsafe(no_mangle)]
pub extern "C" fn scanboot_block_addresses_at_with(image: &[u8], place: u64, order: u32) -> u64
    ensures { result ≡ packed_addresses (numbers_of_asked (asked_of (standing_in (in_order order plain) image.now place))) }
{
    scanboot::scanboot_block_addresses_at_with(image, place, order)
}

#[unsafe(no_mangle)]
pub extern "C" fn scanboot_block_with(image: &[u8], number: u64, order: u32) -> u64
    ensures { result ≡ packed_asked (numbers_of_asked (asked_of (asking_in (in_order order plain) image.now number))) }
{
    scanboot::scanboot_block_with(image, number, order)
}

#[unsafe(no_mangle)]
pub extern "C" fn scanboot_block_addresses_with(image: &[u8], number: u64, order: u32) -> u64
    ensures { result ≡ packed_addresses (numbers_of_asked (asked_of (asking_in (in_order order plain) image.now number))) }
{
    scanboot::scanboot_block_addresses_with(image, number, order)
}

#[unsafe(no_mangle)]
pub extern "C" fn scanboot_load_image_with(
    image: &[u8],
    base: u64,
    window: &mut [u8],
    order: u32,
) -> u64
    ensures answers { result ≡ packed_loading (numbers_of_loading (loading_of (loading_image (in_order order plain) image.now base (length window.old)))) }
    ensures leaves { window.new ≡ window_after (loading_image (in_order order plain) image.now base (length window.old)) base window.old }
{
    scanboot::scanboot_load_image_with(image, base, window, order)
}

#[unsafe(no_mangle)]
pub extern "C" fn scanboot_load_coff_with(
    file: &[u8],
    base: u64,
    window: &mut [u8],
    patterns: &[u8],
) -> u64
    ensures answers { result ≡ packed_loading (numbers_of_loading (loading_of (loading_coff (options_of patterns.now) file.now base (length window.old)))) }
    ensures leaves { window.new ≡ window_after (loading_coff (options_of patterns.now) file.now base (length window.old)) base window.old }
{
    scanboot::scanboot_load_coff_with(file, base, window, patterns)
}

#[unsafe(no_mangle)]
pub extern "C" fn scanboot_check_with(file: &[u8], image: &[u8], patterns: &[u8], order: u32) -> u64
    ensures { result ≡ packed_verdict (numbers_of_verdict (checking (in_order order (options_of patterns.now)) file.now image.now)) }
{
    scanboot::scanboot_check_with(file, image, patterns, order)
}

#[unsafe(no_mangle)]
pub extern "C" fn scanboot_takes(pattern: &[u8], name: &[u8]) -> u32
    ensures { result ≡ taken_number pattern.now name.now }
{
    scanboot::scanboot_takes(pattern, name)
}
