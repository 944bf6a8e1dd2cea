//! An image of 64 MiB of lines that is held to its commit, and the same payloads read alone.

ghost use Rattle.std.specs.Prelude.{◌≡◌, ◌<◌};
ghost use Rattle.fish_image.specs.Commits.{IsWithin};
ghost use Rattle.fish_psf.specs.Blanks.{IsBlankOf};

use crate::lanes::report;
use fish_catalog::{CatRow, Catalog, Commit};
use fish_image::{Checker, is_within};
use fish_psf::Steps;
use fish_read::RecordReader;
use fish_value::{Form, Text};
use std::alloc::{AllocError, Global};
use std::io::Eprint;
use std::marker::Brand;
use std::sync::ledger::{Blank, Ledger};
use std::time::{Clock, Instant};

/// How many records the image has: as many of 1 KiB as fill it, 1,024 to a page.
const RECORDS: u32 = 65_536;

/// How many words are fed at once: 1 MiB.
const PIECE_WORDS: usize = 131_072;

/// The payload of each record.
const PAYLOAD: &str =
    "{\"id\":\"2489651045\",\"type\":\"PushEvent\",\"actor\":{\"id\":485033,\"login\":\"winterb\
    e\",\"gravatar_id\":\"\",\"url\":\"https://api.github.com/users/winterbe\"},\"repo\":{\"id\
    \":28688495,\"name\":\"winterbe/java8-tutorial\"},\"payload\":{\"size\":20,\"f0\":{\"a\":0\
    ,\"b\":\"text 0\",\"c\":true},\"f1\":{\"a\":37,\"b\":\"text 1\",\"c\":true},\"f2\":{\"a\":\
    74,\"b\":\"text 2\",\"c\":true},\"f3\":{\"a\":111,\"b\":\"text 3\",\"c\":true},\"f4\":{\"a\
    \":148,\"b\":\"text 4\",\"c\":true},\"f5\":{\"a\":185,\"b\":\"text 5\",\"c\":true},\"f6\":\
    {\"a\":222,\"b\":\"text 6\",\"c\":true},\"f7\":{\"a\":259,\"b\":\"text 7\",\"c\":true},\"f\
    8\":{\"a\":296,\"b\":\"text 8\",\"c\":true},\"f9\":{\"a\":333,\"b\":\"text 9\",\"c\":true}\
    ,\"f10\":{\"a\":370,\"b\":\"text 10\",\"c\":true},\"f11\":{\"a\":407,\"b\":\"text 11\",\"c\
    \":true},\"f12\":{\"a\":444,\"b\":\"text 12\",\"c\":true},\"f13\":{\"a\":481,\"b\":\"text 1\
    3\",\"c\":true},\"f14\":{\"a\":518,\"b\":\"text 14\",\"c\":true},\"f15\":{\"a\":555,\"b\":\
    \"text 15\",\"c\":true},\"f16\":{\"a\":592,\"b\":\"text 16\",\"c\":true},\"f17\":{\"a\":62\
    9,\"b\":\"text 17\",\"c\":true},\"f18\":{\"a\":666,\"b\":\"text 18\",\"c\":true}},\"public\
    \":true,\"x\":\"yyyyyyyyyyyyyyyyyy\"}";

/// The words of a record of 32 lines with this payload and one key entry, whose first word is the previous
/// node and whose second is the number.
const WORDS: &[u64] = &[
    0x000f_4001_0804_0020,
    0x0,
    0x0,
    0x26,
    0x6e65_7645_6873_7550,
    0x74,
    0x3222_3a22_6469_227b,
    0x3430_3135_3639_3834,
    0x6570_7974_222c_2235,
    0x4568_7375_5022_3a22,
    0x6122_2c22_746e_6576,
    0x227b_3a22_726f_7463,
    0x3035_3834_3a22_6469,
    0x6967_6f6c_222c_3333,
    0x746e_6977_223a_226e,
    0x6722_2c22_6562_7265,
    0x5f72_6174_6176_6172,
    0x222c_2222_3a22_6469,
    0x7468_223a_226c_7275,
    0x7061_2f2f_3a73_7074,
    0x6275_6874_6967_2e69,
    0x6573_752f_6d6f_632e,
    0x6574_6e69_772f_7372,
    0x7222_2c7d_2265_6272,
    0x6922_7b3a_226f_7065,
    0x3838_3638_323a_2264,
    0x6d61_6e22_2c35_3934,
    0x746e_6977_223a_2265,
    0x7661_6a2f_6562_7265,
    0x726f_7475_742d_3861,
    0x7022_2c7d_226c_6169,
    0x3a22_6461_6f6c_7961,
    0x3a22_657a_6973_227b,
    0x3a22_3066_222c_3032,
    0x222c_303a_2261_227b,
    0x7478_6574_223a_2262,
    0x3a22_6322_2c22_3020,
    0x6622_2c7d_6575_7274,
    0x3a22_6122_7b3a_2231,
    0x223a_2262_222c_3733,
    0x2c22_3120_7478_6574,
    0x6575_7274_3a22_6322,
    0x7b3a_2232_6622_2c7d,
    0x222c_3437_3a22_6122,
    0x7478_6574_223a_2262,
    0x3a22_6322_2c22_3220,
    0x6622_2c7d_6575_7274,
    0x3a22_6122_7b3a_2233,
    0x3a22_6222_2c31_3131,
    0x2233_2074_7865_7422,
    0x7572_743a_2263_222c,
    0x3a22_3466_222c_7d65,
    0x3834_313a_2261_227b,
    0x6574_223a_2262_222c,
    0x6322_2c22_3420_7478,
    0x2c7d_6575_7274_3a22,
    0x6122_7b3a_2235_6622,
    0x6222_2c35_3831_3a22,
    0x2074_7865_7422_3a22,
    0x743a_2263_222c_2235,
    0x3666_222c_7d65_7572,
    0x323a_2261_227b_3a22,
    0x223a_2262_222c_3232,
    0x2c22_3620_7478_6574,
    0x6575_7274_3a22_6322,
    0x7b3a_2237_6622_2c7d,
    0x2c39_3532_3a22_6122,
    0x7865_7422_3a22_6222,
    0x2263_222c_2237_2074,
    0x222c_7d65_7572_743a,
    0x2261_227b_3a22_3866,
    0x2262_222c_3639_323a,
    0x3820_7478_6574_223a,
    0x7274_3a22_6322_2c22,
    0x2239_6622_2c7d_6575,
    0x3333_3a22_6122_7b3a,
    0x7422_3a22_6222_2c33,
    0x222c_2239_2074_7865,
    0x7d65_7572_743a_2263,
    0x7b3a_2230_3166_222c,
    0x2c30_3733_3a22_6122,
    0x7865_7422_3a22_6222,
    0x6322_2c22_3031_2074,
    0x2c7d_6575_7274_3a22,
    0x227b_3a22_3131_6622,
    0x222c_3730_343a_2261,
    0x7478_6574_223a_2262,
    0x2263_222c_2231_3120,
    0x222c_7d65_7572_743a,
    0x6122_7b3a_2232_3166,
    0x6222_2c34_3434_3a22,
    0x2074_7865_7422_3a22,
    0x3a22_6322_2c22_3231,
    0x6622_2c7d_6575_7274,
    0x2261_227b_3a22_3331,
    0x2262_222c_3138_343a,
    0x3120_7478_6574_223a,
    0x743a_2263_222c_2233,
    0x3166_222c_7d65_7572,
    0x3a22_6122_7b3a_2234,
    0x3a22_6222_2c38_3135,
    0x3431_2074_7865_7422,
    0x7274_3a22_6322_2c22,
    0x3531_6622_2c7d_6575,
    0x353a_2261_227b_3a22,
    0x223a_2262_222c_3535,
    0x2235_3120_7478_6574,
    0x7572_743a_2263_222c,
    0x2236_3166_222c_7d65,
    0x3935_3a22_6122_7b3a,
    0x7422_3a22_6222_2c32,
    0x2c22_3631_2074_7865,
    0x6575_7274_3a22_6322,
    0x3a22_3731_6622_2c7d,
    0x3932_363a_2261_227b,
    0x6574_223a_2262_222c,
    0x222c_2237_3120_7478,
    0x7d65_7572_743a_2263,
    0x7b3a_2238_3166_222c,
    0x2c36_3636_3a22_6122,
    0x7865_7422_3a22_6222,
    0x6322_2c22_3831_2074,
    0x7d7d_6575_7274_3a22,
    0x6369_6c62_7570_222c,
    0x222c_6575_7274_3a22,
    0x7979_7979_223a_2278,
    0x7979_7979_7979_7979,
    0x7d22_7979_7979_7979,
];

/// Makes the image, and times how long it takes to check it, and to read its payloads alone.
pub fn measure_image<R: Clock + AllocGlobal + Eprint>(rt: &R) -> Result<(), AllocError> {
    let words = image(rt.alloc())?;
    let c = commit(rt.alloc())?;
    time_check(rt, &c, words.as_slice());
    time_reads(rt);
    drop(c);
    Ok(())
}

/// The words of all records, each linked to the one before it.
fn image(alloc: Global) -> Result<Vec<u64>, AllocError> {
    let mut words = Vec::new(alloc);
    let mut prev = 0u64;
    for number in 0..u64::from(RECORDS) {
        for (position, word) in WORDS.iter().enumerate() {
            let word = match position {
                1 => prev,
                2 => number,
                _ => *word,
            };
            words.push(word)?;
        }
        prev = number.saturating_mul(128).saturating_add(1);
    }
    Ok(words)
}

/// A commit of all records.
fn commit(alloc: Global) -> Result<Commit, AllocError> {
    Ok(Commit {
        format: 2,
        turn: 0,
        pages: 64,
        bucket_bits: 12,
        count: RECORDS,
        lines: 32 * u64::from(RECORDS),
        rows: catalog(alloc)?,
    })
}

fn catalog(alloc: Global) -> Result<Catalog, AllocError> {
    let mut rows = Vec::new(alloc);
    rows.push(CatRow {
        id: 0,
        name: Text::copy_of(alloc, "kind")?,
        def: Text::copy_of(alloc, "take type")?,
        from: Some(0),
        to: None,
    })?;
    match Catalog::from_rows(alloc, rows)? {
        Some(catalog) => Ok(catalog),
        None => Ok(Catalog::new(alloc)),
    }
}

/// Times the check. An image that were refused would count for no byte.
fn time_check<R: Clock + Eprint + AllocGlobal>(rt: &R, c: &Commit, words: &[u64]) {
    if !is_within(c) {
        return;
    }
    let Ok(start) = Instant::now(rt) else {
        return;
    };
    let taken = check_pieces(rt.alloc(), words, c);
    let Ok(took) = start.elapsed(rt) else {
        return;
    };
    let bytes = if taken { 1024 * u64::from(RECORDS) } else { 0 };
    report(rt, "image", 1, took.as_nanos(), bytes, "bytes");
}

/// Whether the image is taken, in pieces.
fn check_pieces(alloc: Global, words: &[u64], c: &Commit) -> bool
    requires { IsWithin c.now }
{
    let Ok(mut checker) = Checker::new(alloc, c) else {
        return false;
    };
    for piece in words.chunks(PIECE_WORDS) {
        if checker.feed(piece).is_err() {
            drop(checker);
            return false;
        }
    }
    match checker.finish() {
        Ok(checked) => {
            drop(checked);
            true
        }
        Err(_) => false,
    }
}

/// Times the reading of the payloads alone, by one reader.
fn time_reads<R: Clock + Eprint + AllocGlobal>(rt: &R) {
    let Ok(start) = Instant::now(rt) else {
        return;
    };
    let records = read_once(rt.alloc());
    let Ok(took) = start.elapsed(rt) else {
        return;
    };
    report(
        rt,
        "payloads",
        1,
        took.as_nanos(),
        records.saturating_mul(1024),
        "bytes",
    );
}

/// Reads the payload as often as the image has it.
fn read_once(alloc: Global) -> u64 {
    read_all::<Brand>(alloc, Blank::new(1))
}

/// The same with a counter of a blank. How often it was a record.
fn read_all<P: Ledger>(alloc: Global, blank: Blank) -> u64
    requires blank { IsBlankOf P.name P.parts blank }
{
    let mut steps = Steps::<P>::new(blank);
    let mut reader = RecordReader::new(alloc);
    let mut records = 0u64;
    for _number in 0..RECORDS {
        if let Ok(row) = reader.read(alloc, Form::Json, PAYLOAD.as_bytes(), &mut steps) {
            drop(row);
            records = records.saturating_add(1);
        }
    }
    drop(reader);
    records
}
