//! Texts of the profile and what reading them answers. A row is a text, `~` and the answer; `;` parts rows. Documents are
//! shown with `--` and their tag before each, scalars as `(text)`, sequences as `[..]`, maps as `{key=value..}`.

// Texts that are read, and their documents, by what the rows are about.
pub const READ: [&str; 8] = [
    // lines, blanks and comments
    "\
    ~;\
    \x20\t# c\n\n#~;\
    ---\r\na: b\r\n# c\r\n\r\nc: d~-- {a=(b)c=(d)};\
    ---\na: b#c #d\n~-- {a=(b#c)};\
    ---\na:\t# c\n\t\n \t# d\n  b: c\t \n~-- {a={b=(c)}};\
    ---\n#a: b~-- ();\
    ---\n- #\n- a #b\n- a#b\n- '#' #\n- # \"\n~-- [()(a)(a#b)(#)()]",
    // where documents begin and end
    "\
    ---~-- ();\
    # c\n--- !t # c\n...\n\n---\t\n---\na\n... # c\n~-- !t ()-- ()-- (a);\
    --- \t !a#b\t# c\nx\n~-- !a#b (x);\
    --- #!a\n---\t!!\n~-- ()-- !! ();\
    ---\na\n---\nb\n...\n# c\n---\nc\n~-- (a)-- (b)-- (c);\
    ---\n--- x\n---\n---x: y\n~-- (--- x)-- {---x=(y)};\
    ---\n--- !\n---\n--- !a b\n~-- (--- !)-- (--- !a b);\
    ---\n... x\n---\n...x\n~-- (... x)-- (...x);\
    ---\n[a,\n ---\n, b]\n~-- [(a)(---)(b)]",
    // maps on lines
    "\
    --- !ifs-v1\r\nA: 1\r\n'B' : 'x''y' # c\r\nC:\r\n~-- !ifs-v1 {A=(1)B=(x'y)C=()};\
    ---\na:\n- b\n-  c: d\n   e:   \n   - f\n-\n- \n  g: h\ni:\n  - j\nk: l\n~-- {a=[(b){c=(d)e=[(f)]}(){g=(h)}]i=[(j)]k=(l)};\
    ---\na:\n  b:\n    c: d\n    e:\n  f: g\nh: # c\n\n  # c\n   i: j\n~-- {a={b={c=(d)e=()}f=(g)}h={i=(j)}};\
    ---\na:\n\n    # c\n  b: c\n# d\n  e: f\n~-- {a={b=(c)e=(f)}};\
    ---\na:\nb:\n  c:\nd:~-- {a=()b={c=()}d=()};\
    ---\na :b: c\n\"d\"\t:\te\n'':\n'f': g\n~-- {a :b=(c)d=(e)=()f=(g)};\
    ---\na: [b\n,c]\nd: {}\ne: {f,\n# c\n} # c\ng: h\n~-- {a=[(b)(c)]d={}e={f=()}g=(h)};\
    ---\na: 1\na: 2\n~-- {a=(1)a=(2)}",
    // sequences on lines
    "\
    ---\n- a b\n-\n  - b\n  -\n\n-   \"c\\x41\": \n- # c\n - d: e\n~-- [(a b)[(b)()]{cA=()}[{d=(e)}]];\
    ---\n- a\n-\n- b: c\n  d: e\n-\tf: g\n\t\n- -h\n~-- [(a)(){b=(c)d=(e)}{f=(g)}(-h)];\
    ---\n- a: b\n  c:\n  - d\n  - e\n-\n  - f\n-   'g' : h\n    i: j\n~-- [{a=(b)c=[(d)(e)]}[(f)]{g=(h)i=(j)}];\
    ---\n- [a]\n- {b: c}\n- 'd'\n- \"e\" # f\n-\n\n  g: h\n~-- [[(a)]{b=(c)}(d)(e){g=(h)}];\
    ---\n- # c\n  a: b\n-\n - c\n~-- [{a=(b)}[(c)]]",
    // flow
    "\
    ---\n{a: [b, 'c' ,], \"d\":{e, f: , g:,}, # c\n# c\n h\n: i, 'j'\n:k}\n~-- {a=[(b)(c)]d={e=()f=()g=()}h=(i)j=(k)};\
    ---\n[\n\t[], {}] # c~-- [[]{}];\
    ---\n[{a: b}, [c], {d: [e, {f: g}]}]~-- [{a=(b)}[(c)]{d=[(e){f=(g)}]}];\
    ---\n{\"a\":b, 'c':\"d\", \"e\":[f], 'g':{}, \"h\" :i, \"j\": k}~-- {a=(b)c=(d)e=[(f)]g={}h=(i)j=(k)};\
    ---\n{a:b, c::d, :e, -f: -g, ?h, i j : k}~-- {a:b=()c::d=():e=()-f=(-g)?h=()i j=(k)};\
    ---\n{\"a\"::b, \"c\":\n:d, 'e' # c\n\n\t:f}~-- {a=(:b)c=(:d)e=(f)};\
    ---\n{a: b\n,\n# c\nc\n:\nd,e:}\n~-- {a=(b)c=(d)e=()};\
    ---\n[a b , c\td\t,'e' , \"f\",]~-- [(a b)(c\td)(e)(f)];\
    ---\n[a#b, c #d, e\n, f]~-- [(a#b)(c)(f)]",
    // plain scalars
    "\
    ---\nword two #3\n~-- (word two);\
    ---\n-a: -b\n-b: c:d\n~-- {-a=(-b)-b=(c:d)};\
    ---\n{a: -1, b: c d}\n~-- {a=(-1)b=(c d)};\
    ---\na:: b\n::c: d\n-: e\n?: f\n:g: h\ni: ?j\n~-- {a:=(b)::c=(d)-=(e)?=(f):g=(h)i=(?j)};\
    ---\na: b, [c] {d} & * ! | > ' \" % @ ` #e\n~-- {a=(b, [c] {d} & * ! | > ' \" % @ `)};\
    ---\na: b c\td \t\n~-- {a=(b c\td)};\
    ---\n\u{e9}\x7f\n~-- (\u{e9}\x7f)",
    // scalars in quotes
    "\
    ---\n'' \n~-- ();\
    ---\n'it''s'''\n~-- (it's');\
    ---\n['\\x41\\', \"a'b\", 'c\"d', \"e\tf\"]~-- [(\\x41\\)(a'b)(c\"d)(e\tf)];\
    ---\n\"\\\\\\\"\\/\\0\\a\\b\\t\\n\\v\\f\\r\\e\\ \\x41\\u00e9\\U0001f600\"\n~-- (\\\"/\0\x07\x08\t\n\x0b\x0c\r\x1b A\u{e9}\u{1f600});\
    ---\n[\"\\xe9\\xAb\", \"\\ud7ff\\ue000\\U0010FFFF\"]~-- [(\u{e9}\u{ab})(\u{d7ff}\u{e000}\u{10ffff})]",
    // depth
    "\
    ---\n[[[[[[[[[[[[[[[[a]]]]]]]]]]]]]]]]\n~-- [[[[[[[[[[[[[[[[(a)]]]]]]]]]]]]]]]];\
    ---\n- a: [[[[[[[[[[[[[[]]]]]]]]]]]]]]\n~-- [{a=[[[[[[[[[[[[[[]]]]]]]]]]]]]]}]",
];

// Texts that are refused, and the cause.
pub const REFUSED: [&str; 11] = [
    // tabs
    "\
    ---\n \ta: 1\n~At(5, Tab);\
    \ta\n~At(0, Tab);\
    ---\na:\n  \t\tb: c~At(9, Tab);\
    ---\n[a]\n\t[b]\n~At(8, Tab);\
    ---\n}\n[\n\t]~At(8, Tab);\
    ---\n\t\0~At(4, Tab)",
    // bytes
    "\
    x\n---\na\rb~At(7, BadByte);\
    ---\r\r\n~At(3, BadByte);\
    ---\na\r~At(5, BadByte);\
    # \x1f~At(2, BadByte);\
    ---\n'\x0b~At(4, Unclosed);\
    ---\n'\x0b'~At(5, BadByte)",
    // what isn't closed
    "\
    ---\n'a\nb'~At(4, Unclosed);\
    ---\n'a''\n'b'~At(4, Unclosed);\
    ---\na: \"b\\\"\n\"~At(7, Unclosed);\
    ---\n['a]\n]~At(5, Unclosed);\
    ---\n['a]~At(4, Unclosed);\
    ---\n[[]\n---\n]~At(4, Unclosed);\
    ---\n[\n...\n~At(4, Unclosed);\
    ---\n{[}~At(4, Unclosed);\
    ---\n[]]\n[~At(8, Unclosed);\
    ---\n} [a]~At(6, Unclosed);\
    ---\n}\n{\n\ta}~At(6, Unclosed);\
    --- !ifs-v1\n[[[[[[[[[[[[[[[[[]]]]]]]]]]]]]]]]\n~At(12, Unclosed)",
    // escapes
    "\
    ---\n\"\\ud800\"~At(5, BadEscape);\
    ---\n\"\\udfff\"~At(5, BadEscape);\
    ---\n\"\\U00110000\"~At(5, BadEscape);\
    ---\n\"\\x\"~At(5, BadEscape);\
    ---\n\"\\x4\"~At(5, BadEscape);\
    ---\n\"\\u12g4\"~At(5, BadEscape);\
    ---\n\"\\U0010fff\"~At(5, BadEscape);\
    ---\n\"\\\\\\'\\q\"~At(7, BadEscape);\
    ---\n{\"\\N\":a}\n~At(6, BadEscape);\
    ---\n[\"\\q\"~At(4, Unclosed);\
    ---\n\"\\q\" [~At(5, BadEscape)",
    // forms that are left out
    "\
    ---\n&a~At(4, Unsupported);\
    ---\n- *a~At(6, Unsupported);\
    ---\na: !b c~At(7, Unsupported);\
    ---\na: |\n~At(7, Unsupported);\
    ---\na: >-\n~At(7, Unsupported);\
    ---\n%YAML 1.2\n~At(4, Unsupported);\
    ---\n[@a]~At(5, Unsupported);\
    ---\na: 'b' `~At(11, Unsupported);\
    ---\n? a\n~At(4, Unsupported);\
    ---\n[a, ?\tb]~At(8, Unsupported);\
    x\n--- !a b\n---\n&a~At(15, Unsupported);\
    ---\n[,]\n---\n!a~At(12, Unsupported)",
    // lines outside documents
    "\
    x~At(0, Shape);\
    \u{feff}---\n~At(0, Shape);\
    # c\n  x\n---\n~At(4, Shape);\
    %YAML 1.2\n---\n~At(0, Shape);\
    '\n[\n&\n~At(0, Shape);\
    ---#\n~At(0, Shape);\
    --- !\n~At(0, Shape);\
    ---!a\n~At(0, Shape);\
    \x20---\n~At(0, Shape);\
    ---\n...\n...\n~At(8, Shape);\
    ---\na: 1\n...\nb\n--- !t\n c\n~At(13, Shape);\
    --- # c\n---\n a: 1\n--- x\n~At(8, Shape);\
    ---\na\n---\n[,]\n---\n[,]~At(6, Shape);\
    ---\na\n--- !t u\n~At(0, Shape)",
    // roots
    "\
    ---\n  a\n~At(0, Shape);\
    ---\n [a]\n~At(0, Shape);\
    ---\n# c\n a: b\n~At(0, Shape);\
    ---\na\nb\n~At(0, Shape);\
    ---\n[a] b\n~At(0, Shape);\
    ---\n[a]#b\n~At(0, Shape);\
    ---\n'a'#b\n~At(0, Shape);\
    ---\n'a' b\n~At(0, Shape);\
    ---\n]\n~At(0, Shape);\
    ---\n?\n~At(0, Shape)",
    // maps that aren't
    "\
    ---\n'a':b\n~At(0, Shape);\
    ---\n'a'\n: b\n~At(0, Shape);\
    ---\n: a\n~At(0, Shape);\
    ---\n{a}: b\n~At(0, Shape);\
    ---\na: b: c\n~At(0, Shape);\
    ---\na: b\nc\n~At(0, Shape);\
    ---\na: b\n  c\n~At(0, Shape);\
    ---\na:\n  b\n~At(0, Shape);\
    ---\na:\n  {b: c}\n~At(0, Shape);\
    ---\na: 1\n b: 2\n~At(0, Shape);\
    ---\na:\n  b: 1\n c: 2\n~At(0, Shape);\
    ---\na: 1\n- b\n~At(0, Shape);\
    ---\na: [b\n] c\n~At(0, Shape)",
    // sequences that aren't
    "\
    ---\n- a\n - b\n~At(0, Shape);\
    ---\n- - a\n~At(0, Shape);\
    ---\n- : a\n~At(0, Shape);\
    ---\na: - b\n~At(0, Shape);\
    ---\na: -\n~At(0, Shape);\
    ---\n-\n  a\n~At(0, Shape);\
    ---\n-\n- a\nb: c\n~At(0, Shape);\
    ---\n- a\n  b: c\n~At(0, Shape);\
    ---\n- a: b\n   c: d\n~At(0, Shape);\
    ---\n- a: b\n  - c\n~At(0, Shape)",
    // flow that isn't
    "\
    ---\n[a,,]\n~At(0, Shape);\
    ---\n[,]\n~At(0, Shape);\
    ---\n{,}\n~At(0, Shape);\
    ---\n[a: b]\n~At(0, Shape);\
    ---\n[a\nb]\n~At(0, Shape);\
    ---\n[[a] b]\n~At(0, Shape);\
    ---\n{a: b c: d}\n~At(0, Shape);\
    ---\n{a:[b]}\n~At(0, Shape);\
    ---\n{a\n:b}\n~At(0, Shape);\
    ---\n{: a}\n~At(0, Shape);\
    ---\n{[a]: b}\n~At(0, Shape);\
    ---\n{\"a\": b\"c\": d}\n~At(0, Shape);\
    ---\n[a}\n~At(0, Shape);\
    ---\n[- a]\n~At(0, Shape);\
    ---\n[a,#b\n]\n~At(0, Shape)",
    // depth
    "\
    --- !ifs-v1\n[[[[[[[[[[[[[[[[[]]]]]]]]]]]]]]]]]\n~At(0, Shape);\
    ---\n- a: [[[[[[[[[[[[[[[]]]]]]]]]]]]]]]\n~At(0, Shape)",
];
