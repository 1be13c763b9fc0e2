use super::*;
use ifs_bytes::{Memory, Order, Text, Width};
use std::alloc::Global;
use std::fmt::InlineText;
use std::test::Fail;

// The words of a line, which spaces part.
fn words_in(alloc: Global, line: &str) -> Result<Vec<String>, Memory> {
    let mut words = Vec::new(alloc);
    for word in line.split(' ') {
        words.push(String::from_str(alloc, word)?)?;
    }
    Ok(words)
}

// The cause of the words, or `none`.
fn told(alloc: Global, words: &[String]) -> Result<Text, Memory> {
    match Command::parse(alloc, words) {
        Ok(_command) => Text::from_slice(alloc, b"none"),
        Err(cause) => cause.printed(alloc),
    }
}

// Lines, and the cause of each behind a bar.
const LINES: &str = "\
    |UnknownCommand()\n\
    link F|UnknownCommand(link)\n\
    Stub F|UnknownCommand(Stub)\n\
    -- stub F|UnknownCommand(--)\n\
    stub F|none\n\
    stub F G F|none\n\
    stub --output-tbd=o F|UnknownOption(--output-tbd=o)\n\
    stub -o F|UnknownOption(-o)\n\
    stub F -|UnknownOption(-)\n\
    stub ---arch=x86 F|UnknownOption(---arch=x86)\n\
    stub --Arch=x86 F|UnknownOption(--Arch=x86)\n\
    stub --=x F|UnknownOption(--=x)\n\
    stub --sonam=a --arch|UnknownOption(--sonam=a)\n\
    stub --arch|MissingValue(--arch)\n\
    stub F --soname|MissingValue(--soname)\n\
    stub --soname=a --soname|MissingValue(--soname)\n\
    stub --strip-size=yes F|UnwantedValue(--strip-size)\n\
    stub --write-if-changed= F|UnwantedValue(--write-if-changed)\n\
    stub --strip-size --strip-size=yes F|UnwantedValue(--strip-size)\n\
    stub --strip-size yes|none\n\
    stub --soname= F|BadValue(--soname)\n\
    stub --soname  F|BadValue(--soname)\n\
    stub --output-ifs=a\0b F|BadValue(--output-ifs)\n\
    stub --output-elf \0 F|BadValue(--output-elf)\n\
    stub --soname=a --soname= F|BadValue(--soname)\n\
    stub --input-format=tbd F|BadValue(--input-format)\n\
    stub --input-format=elf F|none\n\
    stub --input-format iFs F|none\n\
    stub --input-format=ELFF F|BadValue(--input-format)\n\
    stub --arch=aarch64 F|none\n\
    stub --arch=X86 F|none\n\
    stub --arch=EM_62 F|none\n\
    stub --arch=EM_062 F|BadValue(--arch)\n\
    stub --arch=EM_65536 F|BadValue(--arch)\n\
    stub --arch=arm64 F|BadValue(--arch)\n\
    stub --bitwidth=32 F|none\n\
    stub --bitwidth 64 F|none\n\
    stub --bitwidth=16 F|BadValue(--bitwidth)\n\
    stub --bitwidth=064 F|BadValue(--bitwidth)\n\
    stub --endianness=little F|none\n\
    stub --endianness=big F|none\n\
    stub --endianness=Big F|BadValue(--endianness)\n\
    stub --target=x86_64-unknown-linux-gnu F|none\n\
    stub --target=x86_64 F|BadValue(--target)\n\
    stub --target=x86_64-linux-gnux32 F|BadValue(--target)\n\
    stub --target=z80-none F|BadValue(--target)\n\
    stub --exclude=[ F|BadValue(--exclude)\n\
    stub --exclude a\\ F|BadValue(--exclude)\n\
    stub --exclude=a* --exclude=a* F|none\n\
    stub --exclude=a --exclude=[] F|BadValue(--exclude)\n\
    stub --soname=a --soname=a F|Repeated(--soname)\n\
    stub --soname a --soname=b F|Repeated(--soname)\n\
    stub --strip-size F --strip-size|Repeated(--strip-size)\n\
    stub --soname=a --soname=b --arch=no F|Repeated(--soname)\n\
    stub --arch=no --soname=b --sonam=b F|BadValue(--arch)\n\
    stub --soname=a=b F|none\n\
    stub --soname -- F|none\n\
    stub --soname --arch F|none\n\
    stub --soname --arch=x86|NoInput\n\
    stub -- --arch -o|none\n\
    stub -- F -- --no|none\n\
    stub F --|none\n\
    stub --strip-size -- --strip-size|none\n\
    stub --target=arm-x --arch=arm F|Conflict(--target, --arch)\n\
    stub --arch=arm --target=arm-x F|Conflict(--target, --arch)\n\
    stub --bitwidth=32 --arch=arm --target=arm-x|Conflict(--target, --arch)\n\
    stub --endianness=big --bitwidth=32 --target=arm-x|Conflict(--target, --bitwidth)\n\
    stub --target=arm-x --endianness=little F|Conflict(--target, --endianness)\n\
    stub --output-elf=o --output-ifs=o F|Conflict(--output-ifs, --output-elf)\n\
    stub --output-ifs=- --output-elf - F|Conflict(--output-ifs, --output-elf)\n\
    stub --output-ifs=o --output-elf=o --target=arm-x --bitwidth=32|Conflict(--target, --bitwidth)\n\
    stub --output-ifs=o --output-elf=O F|none\n\
    stub --arch=arm --bitwidth=32 --endianness=big F|none\n\
    stub|NoInput\n\
    stub --|NoInput\n\
    stub --output-ifs=o --output-elf=o|Conflict(--output-ifs, --output-elf)\n\
    stub --exclude=b* --strip-needed|NoInput\n\
    stub\x20|none";

#[test]
fn causes_of_lines(rt: HostRuntime) -> Result<(), Fail> {
    let alloc = rt.alloc();
    for row in LINES.split('\n') {
        let (line, cause) = row.split_once('|').ok_or("no bar")?;
        let words = words_in(alloc, line)?;
        let got = told(alloc, words.as_slice())?;
        assert_eq!(rt; got.as_bytes(), cause.as_bytes(), "{line}");
    }
    let got = told(alloc, &[])?;
    assert_eq!(rt; got.as_bytes(), b"NoCommand".as_slice());
    Ok(())
}

// The cause of the words behind `link`, or `none`.
fn told_link(alloc: Global, words: &[String]) -> Result<Text, Memory> {
    match parse_link(alloc, words) {
        Ok(_words) => Text::from_slice(alloc, b"none"),
        Err(cause) => cause.printed(alloc),
    }
}

// The cause of the words behind `tbd`, or `none`.
fn told_tbd(alloc: Global, words: &[String]) -> Result<Text, Memory> {
    match parse_tbd(alloc, words) {
        Ok(_words) => Text::from_slice(alloc, b"none"),
        Err(cause) => cause.printed(alloc),
    }
}

// Lines of words behind `link`, and the cause of each behind a bar.
const LINK_LINES: &str = "\
    --output=o F|none\n\
    --output - F G F|none\n\
    --output=o --kind=exec F|none\n\
    --output=o --kind pie F|none\n\
    --output=o --kind=shared F|none\n\
    --output=o --kind=Exec F|BadValue(--kind)\n\
    --output=o --kind= F|BadValue(--kind)\n\
    --output=o --kind=static F|BadValue(--kind)\n\
    --output= F|BadValue(--output)\n\
    --output=a\0b F|BadValue(--output)\n\
    --entry= F|BadValue(--entry)\n\
    --lib= F|BadValue(--lib)\n\
    --lib=a --lib=a --output=o F|none\n\
    --lib --lib --output=o F|none\n\
    --lib|MissingValue(--lib)\n\
    --now=yes F|UnwantedValue(--now)\n\
    --as-needed --as-needed F|Repeated(--as-needed)\n\
    --runpath=a --runpath=b F|Repeated(--runpath)\n\
    --dynamic-linker=a --soname=b --entry=c --export-dynamic --allow-shlib-undefined --output=o F|none\n\
    --output-ifs=o F|UnknownOption(--output-ifs=o)\n\
    --to=4 F|UnknownOption(--to=4)\n\
    --kind=no --now --now|BadValue(--kind)\n\
    --now --now --kind=no|Repeated(--now)\n\
    --lib=a --now|NoInput\n\
    --lib=a F|MissingOption(--output)\n\
    F -- --output=o|MissingOption(--output)\n\
    F|MissingOption(--output)";

#[test]
fn causes_of_link(rt: HostRuntime) -> Result<(), Fail> {
    let alloc = rt.alloc();
    for row in LINK_LINES.split('\n') {
        let (line, cause) = row.split_once('|').ok_or("no bar")?;
        let words = words_in(alloc, line)?;
        let got = told_link(alloc, words.as_slice())?;
        assert_eq!(rt; got.as_bytes(), cause.as_bytes(), "{line}");
    }
    Ok(())
}

// Lines of words behind `tbd`, and the cause of each behind a bar.
const TBD_LINES: &str = "\
    --to=4 F|none\n\
    F --to 5 --output=- --write-if-changed|none\n\
    --to=3 F|BadValue(--to)\n\
    --to=05 F|BadValue(--to)\n\
    --to=v4 F|BadValue(--to)\n\
    --to= F|BadValue(--to)\n\
    --to=4 --to=4 F|Repeated(--to)\n\
    --to|MissingValue(--to)\n\
    --kind=pie F|UnknownOption(--kind=pie)\n\
    --to=4|NoInput\n\
    F|MissingOption(--to)\n\
    F G|TooManyInputs(2)\n\
    --to=4 F G H|TooManyInputs(3)";

#[test]
fn causes_of_tbd(rt: HostRuntime) -> Result<(), Fail> {
    let alloc = rt.alloc();
    for row in TBD_LINES.split('\n') {
        let (line, cause) = row.split_once('|').ok_or("no bar")?;
        let words = words_in(alloc, line)?;
        let got = told_tbd(alloc, words.as_slice())?;
        assert_eq!(rt; got.as_bytes(), cause.as_bytes(), "{line}");
    }
    Ok(())
}

// So many objects and so many libraries.
fn link_of(alloc: Global, objects: usize, libs: usize) -> Result<Vec<String>, Memory> {
    let mut words = Vec::new(alloc);
    for _turn in 0..libs {
        words.push(String::from_str(alloc, "--lib=a")?)?;
    }
    for _turn in 0..objects {
        words.push(String::from_str(alloc, "F")?)?;
    }
    Ok(words)
}

#[test]
fn many_objects_and_libraries(rt: HostRuntime) -> Result<(), Fail> {
    let alloc = rt.alloc();
    let rows: [(usize, usize, &[u8]); 5] = [
        (4096, 256, b"MissingOption(--output)"),
        (4097, 256, b"TooManyInputs(4097)"),
        (4096, 257, b"TooManyInputs(257)"),
        (5000, 300, b"TooManyInputs(5000)"),
        (0, 300, b"NoInput"),
    ];
    for (objects, libs, cause) in rows {
        let words = link_of(alloc, objects, libs)?;
        let got = told_link(alloc, words.as_slice())?;
        assert_eq!(rt; got.as_bytes(), cause);
    }
    Ok(())
}

#[test]
fn values_of_link(rt: HostRuntime) -> Result<(), Fail> {
    let alloc = rt.alloc();
    let words = words_in(
        alloc,
        "a --lib=x --output=o b --kind=shared --lib y --soname=s --runpath=r --dynamic-linker=d \
        --entry=e --as-needed --write-if-changed --lib=x",
    )?;
    let link = parse_link(alloc, words.as_slice())?;
    assert_eq!(rt; link.objects.as_slice().len(), 2);
    assert_eq!(rt; link.libs.as_slice().len(), 3);
    assert_eq!(rt; link.output.as_bytes(), b"o".as_slice());
    assert!(rt; link.kind == LinkKind::Shared);
    assert_eq!(rt; link.entry_name.as_bytes(), b"e".as_slice());
    assert!(rt; is_text(&link.soname, b"s"));
    assert!(rt; is_text(&link.runpath, b"r"));
    assert!(rt; is_text(&link.interp, b"d"));
    assert!(rt; link.as_needed && link.write_if_changed);
    assert!(rt; !link.export_dynamic && !link.allow_shlib_undefined && !link.bind_now);
    let words = words_in(
        alloc,
        "--output=- --now --export-dynamic --allow-shlib-undefined F",
    )?;
    let link = parse_link(alloc, words.as_slice())?;
    assert!(rt; link.libs.as_slice().is_empty());
    assert_eq!(rt; link.output.as_bytes(), b"-".as_slice());
    assert!(rt; link.kind == LinkKind::Exec);
    assert_eq!(rt; link.entry_name.as_bytes(), b"_start".as_slice());
    assert!(rt; link.soname.is_none() && link.runpath.is_none() && link.interp.is_none());
    assert!(rt; !link.as_needed && !link.write_if_changed);
    assert!(rt; link.export_dynamic && link.allow_shlib_undefined && link.bind_now);
    Ok(())
}

#[test]
fn values_of_tbd(rt: HostRuntime) -> Result<(), Fail> {
    let alloc = rt.alloc();
    let words = words_in(alloc, "--to=4 F")?;
    let tbd = parse_tbd(alloc, words.as_slice())?;
    assert_eq!(rt; tbd.input.as_bytes(), b"F".as_slice());
    assert!(rt; tbd.version == TbdVersion::V4);
    assert_eq!(rt; tbd.output.as_bytes(), b"-".as_slice());
    assert!(rt; !tbd.write_if_changed);
    let words = words_in(alloc, "--output o --write-if-changed --to=5 F")?;
    let tbd = parse_tbd(alloc, words.as_slice())?;
    assert!(rt; tbd.version == TbdVersion::V5);
    assert_eq!(rt; tbd.output.as_bytes(), b"o".as_slice());
    assert!(rt; tbd.write_if_changed);
    Ok(())
}

// The word `stub`, and another so many times.
fn many(alloc: Global, word: &str, count: usize) -> Result<Vec<String>, Memory> {
    let mut words = words_in(alloc, "stub")?;
    for _turn in 0..count {
        words.push(String::from_str(alloc, word)?)?;
    }
    Ok(words)
}

#[test]
fn many_words(rt: HostRuntime) -> Result<(), Fail> {
    let alloc = rt.alloc();
    let rows: [(&str, usize, &[u8]); 5] = [
        ("F", 1, b"none"),
        ("F", 4096, b"none"),
        ("F", 4097, b"TooManyInputs(4097)"),
        ("F", 20000, b"TooManyInputs(20000)"),
        ("--exclude=a*", 20000, b"NoInput"),
    ];
    for (word, count, cause) in rows {
        let words = many(alloc, word, count)?;
        let got = told(alloc, words.as_slice())?;
        assert_eq!(rt; got.as_bytes(), cause);
    }
    let mut words = many(alloc, "F", 5000)?;
    words.push(String::from_str(alloc, "--target=arm-x")?)?;
    words.push(String::from_str(alloc, "--arch=arm")?)?;
    let got = told(alloc, words.as_slice())?;
    assert_eq!(rt; got.as_bytes(), b"Conflict(--target, --arch)".as_slice());
    Ok(())
}

// Whether a text is there, with these bytes.
fn is_text(text: &Option<Text>, bytes: &[u8]) -> bool {
    match text {
        Some(text) => text.as_bytes() == bytes,
        None => false,
    }
}

#[test]
fn values_of_stub(rt: HostRuntime) -> Result<(), Fail> {
    let alloc = rt.alloc();
    let line =
        "stub a --output-ifs - --output-elf=o=p --input-format=elf --arch=AARCH64 b --bitwidth=64 \
        --endianness=little --soname=s --exclude=x* --exclude ?y --strip-ifs-arch --strip-ifs-target \
        --strip-undefined --strip-size --write-if-changed -- -c";
    let words = words_in(alloc, line)?;
    let Command::Stub(stub) = Command::parse(alloc, words.as_slice())?;
    assert_eq!(rt; stub.inputs.as_slice().len(), 3);
    assert!(rt; is_text(&stub.output_ifs, b"-"));
    assert!(rt; is_text(&stub.output_elf, b"o=p"));
    assert!(rt; stub.input_format == Some(InputFormat::Elf));
    assert!(rt; stub.adjust.given.triple.is_none());
    assert!(rt; stub.adjust.given.machine == Some(183));
    assert!(rt; stub.adjust.given.width == Some(Width::W64));
    assert!(rt; stub.adjust.given.order == Some(Order::Little));
    assert!(rt; is_text(&stub.adjust.soname, b"s"));
    assert_eq!(rt; stub.adjust.exclude.as_slice().len(), 2);
    assert!(rt; stub.adjust.strip_undefined && !stub.adjust.strip_needed && stub.adjust.strip_size);
    assert!(rt; stub.strip.arch && !stub.strip.width && !stub.strip.order && stub.strip.target);
    assert!(rt; stub.write_if_changed);
    let words = words_in(alloc, "stub --target arm-none-eabi F")?;
    let Command::Stub(stub) = Command::parse(alloc, words.as_slice())?;
    assert!(rt; is_text(&stub.adjust.given.triple, b"arm-none-eabi"));
    assert!(rt; stub.output_ifs.is_none() && stub.output_elf.is_none());
    assert!(rt; !stub.write_if_changed);
    Ok(())
}

// What no line of `stub` gives, and the messages for callers that take any error.
#[test]
fn causes_as_text(rt: HostRuntime) -> Result<(), Fail> {
    let alloc = rt.alloc();
    let missing = WordCause::MissingOption(Text::from_slice(alloc, b"--to")?);
    assert_eq!(rt;
        missing.printed(alloc)?.as_bytes(),
        b"MissingOption(--to)".as_slice()
    );
    assert_eq!(rt;
        WordCause::Memory.printed(alloc)?.as_bytes(),
        b"Memory".as_slice()
    );
    let message: InlineText<64> = InlineText::of(missing);
    assert_eq!(rt;
        message.as_str(),
        "the command needs an option that isn't there"
    );
    let message: InlineText<64> = InlineText::of(WordCause::NoInput);
    assert_eq!(rt; message.as_str(), "there is no input");
    Ok(())
}
