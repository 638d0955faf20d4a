//! Conditions and orders over a workshop.

use crate::asking::{WHOLE, differences};
use std::test::Fail;

/// A workshop: workers, each with a chief, their tools and lockers, notes on tools, and prices. Keys and links have one
/// or two columns; there are nulls in a column of each kind.
pub(crate) const WORKSHOP: &str = r##"
CREATE TYPE grade AS ENUM ('junior', 'in training', 'topLevel');
CREATE TYPE kind AS ENUM ('hand', 'power-driven', '');
CREATE TABLE workers (
    firm integer, badge bigint, name varchar(20) NOT NULL, chief_firm integer, chief_badge bigint,
    grade grade, active boolean, pay bigint, floor integer,
    PRIMARY KEY (firm, badge),
    FOREIGN KEY (chief_firm, chief_badge) REFERENCES workers
);
CREATE TABLE tools (
    id bigserial PRIMARY KEY, owner_firm integer, owner_badge bigint, label text, kind kind,
    weight bigint, broken boolean,
    UNIQUE (label, kind),
    FOREIGN KEY (owner_firm, owner_badge) REFERENCES workers (firm, badge)
);
CREATE TABLE lockers (
    firm integer, badge bigint, spot integer UNIQUE, open boolean,
    PRIMARY KEY (badge, firm),
    FOREIGN KEY (firm, badge) REFERENCES workers (firm, badge)
);
CREATE TABLE notes (
    tool_id integer REFERENCES tools, body text, flag boolean, number bigint, mood grade, rank integer
);
CREATE TABLE prices (
    label text NOT NULL, kind kind, amount bigint,
    FOREIGN KEY (kind, label) REFERENCES tools (kind, label)
);
INSERT INTO workers VALUES
    (1, 1, 'Ada', NULL, NULL, 'topLevel', TRUE, 9007199254740993, 2),
    (1, 2, 'Bea', 1, 1, 'junior', FALSE, NULL, 1),
    (2, 1, 'Cid', 1, 1, NULL, NULL, -5, 1),
    (2, 9223372036854775807, 'Dora', 2, NULL, 'in training', TRUE, NULL, NULL),
    (2, 3, 'eve', 2, 1, 'junior', TRUE, 100, 2),
    (1, -7, 'Éva', 2, 1, 'topLevel', FALSE, 100, NULL),
    (3, 1, '', 3, 1, 'in training', NULL, -5, 2);
INSERT INTO tools VALUES
    (1, 1, 1, 'saw', 'hand', 3, FALSE),
    (2, 1, 1, 'saw', 'power-driven', 12, TRUE),
    (3, 1, 1, NULL, 'hand', NULL, NULL),
    (4, NULL, NULL, 'saw', NULL, 3, FALSE),
    (5, 2, 1, 'drill', 'power-driven', 7, FALSE),
    (6, 2, NULL, 'awl', 'hand', 1, TRUE),
    (7, NULL, NULL, NULL, '', NULL, TRUE),
    (8, 1, 1, '"x"\', '', 3, NULL),
    (20, 1, 2, 'drill', 'hand', 7, TRUE),
    (21, 2, 1, 'Saw', 'hand', NULL, FALSE);
INSERT INTO lockers VALUES
    (1, 1, 10, TRUE),
    (2, 3, NULL, FALSE),
    (1, -7, 4, NULL),
    (3, 1, NULL, TRUE);
INSERT INTO notes VALUES
    (1, 'first', TRUE, 1, 'junior', 1),
    (NULL, NULL, NULL, NULL, NULL, NULL),
    (20, E'tab\there', FALSE, -9223372036854775808, 'topLevel', 0),
    (1, NULL, NULL, 1, 'junior', NULL),
    (5, '', TRUE, NULL, NULL, -2147483648),
    (1, 'first', FALSE, 2, NULL, 1),
    (NULL, NULL, NULL, NULL, NULL, NULL),
    (20, 'über 😀', TRUE, 9223372036854775807, 'in training', 2147483647);
INSERT INTO prices VALUES
    ('saw', 'hand', 900),
    ('drill', 'power-driven', NULL),
    ('saw', 'hand', 850),
    ('none', NULL, 1),
    ('"x"\', '', 5);
"##;

/// Documents with conditions, their variables and their responses.
const CONDITIONS: &str = r##"
{ allTools(condition: {label: "saw"}) { nodes { id kind } totalCount } } => {"data":{"allTools":{"nodes":[{"id":"1","kind":"HAND"},{"id":"2","kind":"POWER_DRIVEN"},{"id":"4","kind":null}],"totalCount":3}}}
{ allTools(condition: {label: null}) { nodes { id label } totalCount } } => {"data":{"allTools":{"nodes":[{"id":"3","label":null},{"id":"7","label":null}],"totalCount":2}}}
{ allTools(condition: {label: "saw", kind: null}) { nodes { id } } } => {"data":{"allTools":{"nodes":[{"id":"4"}]}}}
{ allTools(condition: {kind: _EMPTY_}) { nodes { id kind } } } => {"data":{"allTools":{"nodes":[{"id":"7","kind":"_EMPTY_"},{"id":"8","kind":"_EMPTY_"}]}}}
{ allTools(condition: {kind: POWER_DRIVEN, broken: false}) { nodes { id kind broken } } } => {"data":{"allTools":{"nodes":[{"id":"5","kind":"POWER_DRIVEN","broken":false}]}}}
{ allTools(condition: {label: "\"x\"\\"}) { nodes { id label } } } => {"data":{"allTools":{"nodes":[{"id":"8","label":"\"x\"\\"}]}}}
{ allTools(condition: {label: """~   "x"\~"""}) { nodes { id label } } } => {"data":{"allTools":{"nodes":[{"id":"8","label":"\"x\"\\"}]}}}
{ allTools(condition: {label: "\u0073aw"}) { totalCount } } => {"data":{"allTools":{"totalCount":3}}}
{ allTools(condition: {}) { totalCount } none: allTools(condition: null) { totalCount } } => {"data":{"allTools":{"totalCount":10},"none":{"totalCount":10}}}
{ allWorkers(condition: {badge: "9223372036854775807"}) { nodes { name badge } } number: allWorkers(condition: {badge: 9223372036854775807}) { nodes { name } } } => {"data":{"allWorkers":{"nodes":[{"name":"Dora","badge":"9223372036854775807"}]},"number":{"nodes":[{"name":"Dora"}]}}}
{ allWorkers(condition: {badge: -7}) { nodes { name } } text: allWorkers(condition: {badge: "-7"}) { nodes { firm } } } => {"data":{"allWorkers":{"nodes":[{"name":"Éva"}]},"text":{"nodes":[{"firm":1}]}}}
{ allWorkers(condition: {name: ""}) { nodes { firm badge } } } => {"data":{"allWorkers":{"nodes":[{"firm":3,"badge":"1"}]}}}
{ allWorkers(condition: {grade: IN_TRAINING, active: null}) { nodes { name } } } => {"data":{"allWorkers":{"nodes":[{"name":""}]}}}
{ allWorkers(condition: {pay: null, floor: null}) { totalCount } pay: allWorkers(condition: {pay: "-5", floor: 1}) { nodes { name } } } => {"data":{"allWorkers":{"totalCount":1},"pay":{"nodes":[{"name":"Cid"}]}}}
{ allNotes(condition: {rank: -0}) { nodes { body rank } } number: allNotes(condition: {number: "-0"}) { totalCount } } => {"data":{"allNotes":{"nodes":[{"body":"tab\there","rank":0}]},"number":{"totalCount":0}}}
query($l: String) { allTools(condition: {label: $l}) { nodes { id } totalCount } } => {"data":{"allTools":{"nodes":[{"id":"1"},{"id":"2"},{"id":"3"},{"id":"4"},{"id":"5"},{"id":"6"},{"id":"7"},{"id":"8"},{"id":"20"},{"id":"21"}],"totalCount":10}}}
query($l: String) { allTools(condition: {label: $l}) { nodes { id } totalCount } } | {"l": null} => {"data":{"allTools":{"nodes":[{"id":"3"},{"id":"7"}],"totalCount":2}}}
query($l: String) { allTools(condition: {label: $l}) { nodes { id } totalCount } } | {"l": "saw"} => {"data":{"allTools":{"nodes":[{"id":"1"},{"id":"2"},{"id":"4"}],"totalCount":3}}}
query($l: String) { allTools(condition: {label: $l}) { nodes { id } totalCount } } | {"l": "Saw"} => {"data":{"allTools":{"nodes":[{"id":"21"}],"totalCount":1}}}
query($l: String) { allTools(condition: {label: $l}) { nodes { id } totalCount } } | {"l": "\u0073\u0061w"} => {"data":{"allTools":{"nodes":[{"id":"1"},{"id":"2"},{"id":"4"}],"totalCount":3}}}
query($l: String) { allTools(condition: {label: $l}) { nodes { id } totalCount } } | {"l": ""} => {"data":{"allTools":{"nodes":[],"totalCount":0}}}
query($c: ToolCondition) { allTools(condition: $c) { nodes { id } } } => {"data":{"allTools":{"nodes":[{"id":"1"},{"id":"2"},{"id":"3"},{"id":"4"},{"id":"5"},{"id":"6"},{"id":"7"},{"id":"8"},{"id":"20"},{"id":"21"}]}}}
query($c: ToolCondition) { allTools(condition: $c) { nodes { id } } } | null => {"data":{"allTools":{"nodes":[{"id":"1"},{"id":"2"},{"id":"3"},{"id":"4"},{"id":"5"},{"id":"6"},{"id":"7"},{"id":"8"},{"id":"20"},{"id":"21"}]}}}
query($c: ToolCondition) { allTools(condition: $c) { nodes { id } } } | {"c": null} => {"data":{"allTools":{"nodes":[{"id":"1"},{"id":"2"},{"id":"3"},{"id":"4"},{"id":"5"},{"id":"6"},{"id":"7"},{"id":"8"},{"id":"20"},{"id":"21"}]}}}
query($c: ToolCondition) { allTools(condition: $c) { nodes { id } } } | {"c": {}} => {"data":{"allTools":{"nodes":[{"id":"1"},{"id":"2"},{"id":"3"},{"id":"4"},{"id":"5"},{"id":"6"},{"id":"7"},{"id":"8"},{"id":"20"},{"id":"21"}]}}}
query($c: ToolCondition) { allTools(condition: $c) { nodes { id } } } | {"c": {"kind": "POWER_DRIVEN"}} => {"data":{"allTools":{"nodes":[{"id":"2"},{"id":"5"}]}}}
query($c: ToolCondition) { allTools(condition: $c) { nodes { id } } } | {"c": {"broken": true, "kind": null}} => {"data":{"allTools":{"nodes":[]}}}
query($c: ToolCondition) { allTools(condition: $c) { nodes { id } } } | {"c": {"weight": "7", "kind": "HAND"}} => {"data":{"allTools":{"nodes":[{"id":"20"}]}}}
query($c: ToolCondition) { allTools(condition: $c) { nodes { id } } } | {"c": {"weight": 3, "broken": false}} => {"data":{"allTools":{"nodes":[{"id":"1"},{"id":"4"}]}}}
query($c: ToolCondition) { allTools(condition: $c) { nodes { id } } } | {"c": {"ownerFirm": 2, "ownerBadge": "1", "label": "Saw"}} => {"data":{"allTools":{"nodes":[{"id":"21"}]}}}
query($c: ToolCondition) { allTools(condition: $c) { nodes { id } } } | {"c": {"id": 20}, "d": 1} => {"data":{"allTools":{"nodes":[{"id":"20"}]}}}
query($k: Kind, $w: BigInt, $b: Boolean, $f: Int) { allTools(condition: {broken: $b, kind: $k, weight: $w, ownerFirm: $f}) { nodes { id } } } => {"data":{"allTools":{"nodes":[{"id":"1"},{"id":"2"},{"id":"3"},{"id":"4"},{"id":"5"},{"id":"6"},{"id":"7"},{"id":"8"},{"id":"20"},{"id":"21"}]}}}
query($k: Kind, $w: BigInt, $b: Boolean, $f: Int) { allTools(condition: {broken: $b, kind: $k, weight: $w, ownerFirm: $f}) { nodes { id } } } | {"k": "HAND"} => {"data":{"allTools":{"nodes":[{"id":"1"},{"id":"3"},{"id":"6"},{"id":"20"},{"id":"21"}]}}}
query($k: Kind, $w: BigInt, $b: Boolean, $f: Int) { allTools(condition: {broken: $b, kind: $k, weight: $w, ownerFirm: $f}) { nodes { id } } } | {"k": null, "w": 3} => {"data":{"allTools":{"nodes":[{"id":"4"}]}}}
query($k: Kind, $w: BigInt, $b: Boolean, $f: Int) { allTools(condition: {broken: $b, kind: $k, weight: $w, ownerFirm: $f}) { nodes { id } } } | {"w": null, "b": null} => {"data":{"allTools":{"nodes":[{"id":"3"}]}}}
query($k: Kind, $w: BigInt, $b: Boolean, $f: Int) { allTools(condition: {broken: $b, kind: $k, weight: $w, ownerFirm: $f}) { nodes { id } } } | {"b": true, "f": 1, "k": "HAND"} => {"data":{"allTools":{"nodes":[{"id":"20"}]}}}
query($k: Kind, $w: BigInt, $b: Boolean, $f: Int) { allTools(condition: {broken: $b, kind: $k, weight: $w, ownerFirm: $f}) { nodes { id } } } | {"f": null} => {"data":{"allTools":{"nodes":[{"id":"4"},{"id":"7"}]}}}
query($k: Kind, $w: BigInt, $b: Boolean, $f: Int) { allTools(condition: {broken: $b, kind: $k, weight: $w, ownerFirm: $f}) { nodes { id } } } | {"w": "12", "f": 1, "b": true, "k": "POWER_DRIVEN"} => {"data":{"allTools":{"nodes":[{"id":"2"}]}}}
query($t: Int, $b: String, $f: Boolean, $n: BigInt, $m: Grade, $r: Int) { allNotes(condition: {toolId: $t, body: $b, flag: $f, number: $n, mood: $m, rank: $r}) { totalCount nodes { toolId body flag number mood rank } } } | {"t": null} => {"data":{"allNotes":{"totalCount":2,"nodes":[{"toolId":null,"body":null,"flag":null,"number":null,"mood":null,"rank":null},{"toolId":null,"body":null,"flag":null,"number":null,"mood":null,"rank":null}]}}}
query($t: Int, $b: String, $f: Boolean, $n: BigInt, $m: Grade, $r: Int) { allNotes(condition: {toolId: $t, body: $b, flag: $f, number: $n, mood: $m, rank: $r}) { totalCount nodes { toolId body flag number mood rank } } } | {"b": null, "n": 1} => {"data":{"allNotes":{"totalCount":1,"nodes":[{"toolId":1,"body":null,"flag":null,"number":"1","mood":"JUNIOR","rank":null}]}}}
query($t: Int, $b: String, $f: Boolean, $n: BigInt, $m: Grade, $r: Int) { allNotes(condition: {toolId: $t, body: $b, flag: $f, number: $n, mood: $m, rank: $r}) { totalCount nodes { toolId body flag number mood rank } } } | {"n": "-9223372036854775808"} => {"data":{"allNotes":{"totalCount":1,"nodes":[{"toolId":20,"body":"tab\there","flag":false,"number":"-9223372036854775808","mood":"TOP_LEVEL","rank":0}]}}}
query($t: Int, $b: String, $f: Boolean, $n: BigInt, $m: Grade, $r: Int) { allNotes(condition: {toolId: $t, body: $b, flag: $f, number: $n, mood: $m, rank: $r}) { totalCount nodes { toolId body flag number mood rank } } } | {"n": 9223372036854775807} => {"data":{"allNotes":{"totalCount":1,"nodes":[{"toolId":20,"body":"über 😀","flag":true,"number":"9223372036854775807","mood":"IN_TRAINING","rank":2147483647}]}}}
query($t: Int, $b: String, $f: Boolean, $n: BigInt, $m: Grade, $r: Int) { allNotes(condition: {toolId: $t, body: $b, flag: $f, number: $n, mood: $m, rank: $r}) { totalCount nodes { toolId body flag number mood rank } } } | {"m": null, "f": false, "t": 1} => {"data":{"allNotes":{"totalCount":1,"nodes":[{"toolId":1,"body":"first","flag":false,"number":"2","mood":null,"rank":1}]}}}
query($t: Int, $b: String, $f: Boolean, $n: BigInt, $m: Grade, $r: Int) { allNotes(condition: {toolId: $t, body: $b, flag: $f, number: $n, mood: $m, rank: $r}) { totalCount nodes { toolId body flag number mood rank } } } | {"t": null, "b": null, "f": null, "n": null, "m": null, "r": null} => {"data":{"allNotes":{"totalCount":2,"nodes":[{"toolId":null,"body":null,"flag":null,"number":null,"mood":null,"rank":null},{"toolId":null,"body":null,"flag":null,"number":null,"mood":null,"rank":null}]}}}
query($t: Int, $b: String, $f: Boolean, $n: BigInt, $m: Grade, $r: Int) { allNotes(condition: {toolId: $t, body: $b, flag: $f, number: $n, mood: $m, rank: $r}) { totalCount nodes { toolId body flag number mood rank } } } | {"r": -2147483648, "b": ""} => {"data":{"allNotes":{"totalCount":1,"nodes":[{"toolId":5,"body":"","flag":true,"number":null,"mood":null,"rank":-2147483648}]}}}
query($t: Int, $b: String, $f: Boolean, $n: BigInt, $m: Grade, $r: Int) { allNotes(condition: {toolId: $t, body: $b, flag: $f, number: $n, mood: $m, rank: $r}) { totalCount nodes { toolId body flag number mood rank } } } | {"b": "\u00fcber \ud83d\ude00"} => {"data":{"allNotes":{"totalCount":1,"nodes":[{"toolId":20,"body":"über 😀","flag":true,"number":"9223372036854775807","mood":"IN_TRAINING","rank":2147483647}]}}}
query($t: Int, $b: String, $f: Boolean, $n: BigInt, $m: Grade, $r: Int) { allNotes(condition: {toolId: $t, body: $b, flag: $f, number: $n, mood: $m, rank: $r}) { totalCount nodes { toolId body flag number mood rank } } } | {"b": "tab\there", "m": "TOP_LEVEL"} => {"data":{"allNotes":{"totalCount":1,"nodes":[{"toolId":20,"body":"tab\there","flag":false,"number":"-9223372036854775808","mood":"TOP_LEVEL","rank":0}]}}}
query($b: Boolean = true, $k: Kind = _EMPTY_) { allTools(condition: {broken: $b, kind: $k}) { nodes { id } } } => {"data":{"allTools":{"nodes":[{"id":"7"}]}}}
query($b: Boolean = true, $k: Kind = _EMPTY_) { allTools(condition: {broken: $b, kind: $k}) { nodes { id } } } | {"b": null, "k": "HAND"} => {"data":{"allTools":{"nodes":[{"id":"3"}]}}}
query($c: WorkerCondition = {floor: 2, active: true}) { allWorkers(condition: $c) { nodes { name } } } => {"data":{"allWorkers":{"nodes":[{"name":"Ada"},{"name":"eve"}]}}}
query($c: WorkerCondition = {floor: 2, active: true}) { allWorkers(condition: $c) { nodes { name } } } | {"c": {"chiefFirm": 2, "chiefBadge": null}} => {"data":{"allWorkers":{"nodes":[{"name":"Dora"}]}}}
"##;

/// Documents with orders, their variables and their responses.
const ORDERS: &str = r##"
{ allWorkers(orderBy: [NAME_ASC]) { nodes { name } } } => {"data":{"allWorkers":{"nodes":[{"name":""},{"name":"Ada"},{"name":"Bea"},{"name":"Cid"},{"name":"Dora"},{"name":"eve"},{"name":"Éva"}]}}}
{ allWorkers(orderBy: [NAME_DESC]) { nodes { name } } } => {"data":{"allWorkers":{"nodes":[{"name":"Éva"},{"name":"eve"},{"name":"Dora"},{"name":"Cid"},{"name":"Bea"},{"name":"Ada"},{"name":""}]}}}
{ allWorkers(orderBy: [GRADE_ASC]) { nodes { grade name } } } => {"data":{"allWorkers":{"nodes":[{"grade":"JUNIOR","name":"Bea"},{"grade":"JUNIOR","name":"eve"},{"grade":"IN_TRAINING","name":"Dora"},{"grade":"IN_TRAINING","name":""},{"grade":"TOP_LEVEL","name":"Ada"},{"grade":"TOP_LEVEL","name":"Éva"},{"grade":null,"name":"Cid"}]}}}
{ allWorkers(orderBy: [GRADE_DESC]) { nodes { grade name } } } => {"data":{"allWorkers":{"nodes":[{"grade":null,"name":"Cid"},{"grade":"TOP_LEVEL","name":"Ada"},{"grade":"TOP_LEVEL","name":"Éva"},{"grade":"IN_TRAINING","name":"Dora"},{"grade":"IN_TRAINING","name":""},{"grade":"JUNIOR","name":"Bea"},{"grade":"JUNIOR","name":"eve"}]}}}
{ allWorkers(orderBy: [ACTIVE_ASC]) { nodes { active name } } } => {"data":{"allWorkers":{"nodes":[{"active":false,"name":"Bea"},{"active":false,"name":"Éva"},{"active":true,"name":"Ada"},{"active":true,"name":"Dora"},{"active":true,"name":"eve"},{"active":null,"name":"Cid"},{"active":null,"name":""}]}}}
{ allWorkers(orderBy: [ACTIVE_DESC]) { nodes { active name } } } => {"data":{"allWorkers":{"nodes":[{"active":null,"name":"Cid"},{"active":null,"name":""},{"active":true,"name":"Ada"},{"active":true,"name":"Dora"},{"active":true,"name":"eve"},{"active":false,"name":"Bea"},{"active":false,"name":"Éva"}]}}}
{ allWorkers(orderBy: [PAY_ASC]) { nodes { pay name } } } => {"data":{"allWorkers":{"nodes":[{"pay":"-5","name":"Cid"},{"pay":"-5","name":""},{"pay":"100","name":"eve"},{"pay":"100","name":"Éva"},{"pay":"9007199254740993","name":"Ada"},{"pay":null,"name":"Bea"},{"pay":null,"name":"Dora"}]}}}
{ allWorkers(orderBy: [PAY_DESC]) { nodes { pay name } } } => {"data":{"allWorkers":{"nodes":[{"pay":null,"name":"Bea"},{"pay":null,"name":"Dora"},{"pay":"9007199254740993","name":"Ada"},{"pay":"100","name":"eve"},{"pay":"100","name":"Éva"},{"pay":"-5","name":"Cid"},{"pay":"-5","name":""}]}}}
{ allWorkers(orderBy: [FLOOR_ASC]) { nodes { floor name } } } => {"data":{"allWorkers":{"nodes":[{"floor":1,"name":"Bea"},{"floor":1,"name":"Cid"},{"floor":2,"name":"Ada"},{"floor":2,"name":"eve"},{"floor":2,"name":""},{"floor":null,"name":"Dora"},{"floor":null,"name":"Éva"}]}}}
{ allWorkers(orderBy: [FLOOR_DESC]) { nodes { floor name } } } => {"data":{"allWorkers":{"nodes":[{"floor":null,"name":"Dora"},{"floor":null,"name":"Éva"},{"floor":2,"name":"Ada"},{"floor":2,"name":"eve"},{"floor":2,"name":""},{"floor":1,"name":"Bea"},{"floor":1,"name":"Cid"}]}}}
{ allWorkers(orderBy: [BADGE_ASC]) { nodes { badge } } } => {"data":{"allWorkers":{"nodes":[{"badge":"-7"},{"badge":"1"},{"badge":"1"},{"badge":"1"},{"badge":"2"},{"badge":"3"},{"badge":"9223372036854775807"}]}}}
{ allWorkers(orderBy: [BADGE_DESC]) { nodes { badge } } } => {"data":{"allWorkers":{"nodes":[{"badge":"9223372036854775807"},{"badge":"3"},{"badge":"2"},{"badge":"1"},{"badge":"1"},{"badge":"1"},{"badge":"-7"}]}}}
{ allWorkers(orderBy: [ACTIVE_ASC, PAY_DESC]) { nodes { active pay name } } } => {"data":{"allWorkers":{"nodes":[{"active":false,"pay":null,"name":"Bea"},{"active":false,"pay":"100","name":"Éva"},{"active":true,"pay":null,"name":"Dora"},{"active":true,"pay":"9007199254740993","name":"Ada"},{"active":true,"pay":"100","name":"eve"},{"active":null,"pay":"-5","name":"Cid"},{"active":null,"pay":"-5","name":""}]}}}
{ allWorkers(orderBy: [GRADE_DESC, FLOOR_ASC]) { nodes { grade floor name } } } => {"data":{"allWorkers":{"nodes":[{"grade":null,"floor":1,"name":"Cid"},{"grade":"TOP_LEVEL","floor":2,"name":"Ada"},{"grade":"TOP_LEVEL","floor":null,"name":"Éva"},{"grade":"IN_TRAINING","floor":2,"name":""},{"grade":"IN_TRAINING","floor":null,"name":"Dora"},{"grade":"JUNIOR","floor":1,"name":"Bea"},{"grade":"JUNIOR","floor":2,"name":"eve"}]}}}
{ allWorkers(orderBy: [PAY_ASC, NAME_DESC]) { nodes { pay name } } } => {"data":{"allWorkers":{"nodes":[{"pay":"-5","name":"Cid"},{"pay":"-5","name":""},{"pay":"100","name":"Éva"},{"pay":"100","name":"eve"},{"pay":"9007199254740993","name":"Ada"},{"pay":null,"name":"Dora"},{"pay":null,"name":"Bea"}]}}}
{ allWorkers(orderBy: [FLOOR_DESC, GRADE_DESC]) { nodes { floor grade name } } } => {"data":{"allWorkers":{"nodes":[{"floor":null,"grade":"TOP_LEVEL","name":"Éva"},{"floor":null,"grade":"IN_TRAINING","name":"Dora"},{"floor":2,"grade":"TOP_LEVEL","name":"Ada"},{"floor":2,"grade":"IN_TRAINING","name":""},{"floor":2,"grade":"JUNIOR","name":"eve"},{"floor":1,"grade":null,"name":"Cid"},{"floor":1,"grade":"JUNIOR","name":"Bea"}]}}}
{ allWorkers(orderBy: [CHIEF_FIRM_DESC, CHIEF_BADGE_ASC]) { nodes { chiefFirm chiefBadge name } } } => {"data":{"allWorkers":{"nodes":[{"chiefFirm":null,"chiefBadge":null,"name":"Ada"},{"chiefFirm":3,"chiefBadge":"1","name":""},{"chiefFirm":2,"chiefBadge":"1","name":"eve"},{"chiefFirm":2,"chiefBadge":"1","name":"Éva"},{"chiefFirm":2,"chiefBadge":null,"name":"Dora"},{"chiefFirm":1,"chiefBadge":"1","name":"Bea"},{"chiefFirm":1,"chiefBadge":"1","name":"Cid"}]}}}
{ allWorkers(orderBy: [FIRM_DESC, BADGE_DESC]) { nodes { firm badge } } } => {"data":{"allWorkers":{"nodes":[{"firm":3,"badge":"1"},{"firm":2,"badge":"9223372036854775807"},{"firm":2,"badge":"3"},{"firm":2,"badge":"1"},{"firm":1,"badge":"2"},{"firm":1,"badge":"1"},{"firm":1,"badge":"-7"}]}}}
{ allWorkers(orderBy: [NATURAL]) { nodes { name } } } => {"data":{"allWorkers":{"nodes":[{"name":"Ada"},{"name":"Bea"},{"name":"Cid"},{"name":"Dora"},{"name":"eve"},{"name":"Éva"},{"name":""}]}}}
{ allWorkers(orderBy: NATURAL) { nodes { name } } } => {"data":{"allWorkers":{"nodes":[{"name":"Ada"},{"name":"Bea"},{"name":"Cid"},{"name":"Dora"},{"name":"eve"},{"name":"Éva"},{"name":""}]}}}
{ allWorkers(orderBy: []) { nodes { name } } } => {"data":{"allWorkers":{"nodes":[{"name":"Ada"},{"name":"Bea"},{"name":"Cid"},{"name":"Dora"},{"name":"eve"},{"name":"Éva"},{"name":""}]}}}
{ allWorkers(orderBy: null) { nodes { name } } } => {"data":{"allWorkers":{"nodes":[{"name":"Ada"},{"name":"Bea"},{"name":"Cid"},{"name":"Dora"},{"name":"eve"},{"name":"Éva"},{"name":""}]}}}
{ allWorkers(orderBy: NAME_DESC) { nodes { name } } } => {"data":{"allWorkers":{"nodes":[{"name":"Éva"},{"name":"eve"},{"name":"Dora"},{"name":"Cid"},{"name":"Bea"},{"name":"Ada"},{"name":""}]}}}
{ allWorkers(orderBy: [NATURAL, PAY_DESC, NATURAL, FLOOR_ASC]) { nodes { pay floor name } } } => {"data":{"allWorkers":{"nodes":[{"pay":null,"floor":1,"name":"Bea"},{"pay":null,"floor":null,"name":"Dora"},{"pay":"9007199254740993","floor":2,"name":"Ada"},{"pay":"100","floor":2,"name":"eve"},{"pay":"100","floor":null,"name":"Éva"},{"pay":"-5","floor":1,"name":"Cid"},{"pay":"-5","floor":2,"name":""}]}}}
{ allWorkers(orderBy: [PAY_ASC, PAY_DESC]) { nodes { pay name } } } => {"data":{"allWorkers":{"nodes":[{"pay":"-5","name":"Cid"},{"pay":"-5","name":""},{"pay":"100","name":"eve"},{"pay":"100","name":"Éva"},{"pay":"9007199254740993","name":"Ada"},{"pay":null,"name":"Bea"},{"pay":null,"name":"Dora"}]}}}
{ allWorkers(orderBy: [GRADE_ASC, GRADE_ASC, NAME_ASC]) { nodes { name } } } => {"data":{"allWorkers":{"nodes":[{"name":"Bea"},{"name":"eve"},{"name":""},{"name":"Dora"},{"name":"Ada"},{"name":"Éva"},{"name":"Cid"}]}}}
query($o: [WorkersOrderBy!]) { allWorkers(orderBy: $o) { nodes { name } } } => {"data":{"allWorkers":{"nodes":[{"name":"Ada"},{"name":"Bea"},{"name":"Cid"},{"name":"Dora"},{"name":"eve"},{"name":"Éva"},{"name":""}]}}}
query($o: [WorkersOrderBy!]) { allWorkers(orderBy: $o) { nodes { name } } } | {"o": null} => {"data":{"allWorkers":{"nodes":[{"name":"Ada"},{"name":"Bea"},{"name":"Cid"},{"name":"Dora"},{"name":"eve"},{"name":"Éva"},{"name":""}]}}}
query($o: [WorkersOrderBy!]) { allWorkers(orderBy: $o) { nodes { name } } } | {"o": []} => {"data":{"allWorkers":{"nodes":[{"name":"Ada"},{"name":"Bea"},{"name":"Cid"},{"name":"Dora"},{"name":"eve"},{"name":"Éva"},{"name":""}]}}}
query($o: [WorkersOrderBy!]) { allWorkers(orderBy: $o) { nodes { name } } } | {"o": "NAME_DESC"} => {"data":{"allWorkers":{"nodes":[{"name":"Éva"},{"name":"eve"},{"name":"Dora"},{"name":"Cid"},{"name":"Bea"},{"name":"Ada"},{"name":""}]}}}
query($o: [WorkersOrderBy!]) { allWorkers(orderBy: $o) { nodes { name } } } | {"o": ["FLOOR_ASC", "PAY_ASC"]} => {"data":{"allWorkers":{"nodes":[{"name":"Cid"},{"name":"Bea"},{"name":""},{"name":"eve"},{"name":"Ada"},{"name":"Éva"},{"name":"Dora"}]}}}
query($o: [WorkersOrderBy!]) { allWorkers(orderBy: $o) { nodes { name } } } | {"o": ["NATURAL"]} => {"data":{"allWorkers":{"nodes":[{"name":"Ada"},{"name":"Bea"},{"name":"Cid"},{"name":"Dora"},{"name":"eve"},{"name":"Éva"},{"name":""}]}}}
query($o: [WorkersOrderBy!] = [PAY_DESC, NAME_DESC]) { allWorkers(orderBy: $o) { nodes { name } } } => {"data":{"allWorkers":{"nodes":[{"name":"Dora"},{"name":"Bea"},{"name":"Ada"},{"name":"Éva"},{"name":"eve"},{"name":"Cid"},{"name":""}]}}}
query($o: [WorkersOrderBy!] = [PAY_DESC, NAME_DESC]) { allWorkers(orderBy: $o) { nodes { name } } } | {"o": null} => {"data":{"allWorkers":{"nodes":[{"name":"Ada"},{"name":"Bea"},{"name":"Cid"},{"name":"Dora"},{"name":"eve"},{"name":"Éva"},{"name":""}]}}}
query($o: [WorkersOrderBy!] = [PAY_DESC, NAME_DESC]) { allWorkers(orderBy: $o) { nodes { name } } } | {"o": "FLOOR_DESC"} => {"data":{"allWorkers":{"nodes":[{"name":"Dora"},{"name":"Éva"},{"name":"Ada"},{"name":"eve"},{"name":""},{"name":"Bea"},{"name":"Cid"}]}}}
query($a: WorkersOrderBy!, $b: WorkersOrderBy = NAME_DESC) { allWorkers(orderBy: [$a, $b]) { nodes { name } } } | {"a": "FLOOR_ASC"} => {"data":{"allWorkers":{"nodes":[{"name":"Cid"},{"name":"Bea"},{"name":"eve"},{"name":"Ada"},{"name":""},{"name":"Éva"},{"name":"Dora"}]}}}
query($a: WorkersOrderBy!, $b: WorkersOrderBy = NAME_DESC) { allWorkers(orderBy: [$a, $b]) { nodes { name } } } | {"a": "NATURAL", "b": "GRADE_DESC"} => {"data":{"allWorkers":{"nodes":[{"name":"Cid"},{"name":"Ada"},{"name":"Éva"},{"name":"Dora"},{"name":""},{"name":"Bea"},{"name":"eve"}]}}}
query($a: WorkersOrderBy!, $b: WorkersOrderBy = NAME_DESC) { allWorkers(orderBy: [$a, $b]) { nodes { name } } } | {"a": "ACTIVE_DESC", "b": null} => {"errors":[{"message":"null for argument orderBy","locations":[{"line":1,"column":62}],"path":["allWorkers"]}],"data":{"allWorkers":null}}
{ allTools(orderBy: [KIND_ASC, WEIGHT_DESC], condition: {broken: true}) { nodes { id kind weight } } } => {"data":{"allTools":{"nodes":[{"id":"20","kind":"HAND","weight":"7"},{"id":"6","kind":"HAND","weight":"1"},{"id":"2","kind":"POWER_DRIVEN","weight":"12"},{"id":"7","kind":"_EMPTY_","weight":null}]}}}
{ allTools(orderBy: [LABEL_ASC, KIND_DESC]) { nodes { label kind id } } } => {"data":{"allTools":{"nodes":[{"label":"\"x\"\\","kind":"_EMPTY_","id":"8"},{"label":"Saw","kind":"HAND","id":"21"},{"label":"awl","kind":"HAND","id":"6"},{"label":"drill","kind":"POWER_DRIVEN","id":"5"},{"label":"drill","kind":"HAND","id":"20"},{"label":"saw","kind":null,"id":"4"},{"label":"saw","kind":"POWER_DRIVEN","id":"2"},{"label":"saw","kind":"HAND","id":"1"},{"label":null,"kind":"_EMPTY_","id":"7"},{"label":null,"kind":"HAND","id":"3"}]}}}
{ allTools(orderBy: [BROKEN_DESC, LABEL_DESC]) { nodes { broken label id } } } => {"data":{"allTools":{"nodes":[{"broken":null,"label":null,"id":"3"},{"broken":null,"label":"\"x\"\\","id":"8"},{"broken":true,"label":null,"id":"7"},{"broken":true,"label":"saw","id":"2"},{"broken":true,"label":"drill","id":"20"},{"broken":true,"label":"awl","id":"6"},{"broken":false,"label":"saw","id":"1"},{"broken":false,"label":"saw","id":"4"},{"broken":false,"label":"drill","id":"5"},{"broken":false,"label":"Saw","id":"21"}]}}}
{ allNotes(orderBy: [NUMBER_DESC, RANK_ASC]) { nodes { number rank } } } => {"data":{"allNotes":{"nodes":[{"number":null,"rank":-2147483648},{"number":null,"rank":null},{"number":null,"rank":null},{"number":"9223372036854775807","rank":2147483647},{"number":"2","rank":1},{"number":"1","rank":1},{"number":"1","rank":null},{"number":"-9223372036854775808","rank":0}]}}}
{ allNotes(orderBy: [MOOD_ASC, FLAG_DESC]) { edges { cursor node { mood flag } } } } => {"data":{"allNotes":{"edges":[{"cursor":"W1siTU9PRF9BU0MiLCJGTEFHX0RFU0MiXSxbImp1bmlvciIsbnVsbF0sNF0=","node":{"mood":"JUNIOR","flag":null}},{"cursor":"W1siTU9PRF9BU0MiLCJGTEFHX0RFU0MiXSxbImp1bmlvciIsdHJ1ZV0sMV0=","node":{"mood":"JUNIOR","flag":true}},{"cursor":"W1siTU9PRF9BU0MiLCJGTEFHX0RFU0MiXSxbImluIHRyYWluaW5nIix0cnVlXSw4XQ==","node":{"mood":"IN_TRAINING","flag":true}},{"cursor":"W1siTU9PRF9BU0MiLCJGTEFHX0RFU0MiXSxbInRvcExldmVsIixmYWxzZV0sM10=","node":{"mood":"TOP_LEVEL","flag":false}},{"cursor":"W1siTU9PRF9BU0MiLCJGTEFHX0RFU0MiXSxbbnVsbCxudWxsXSwyXQ==","node":{"mood":null,"flag":null}},{"cursor":"W1siTU9PRF9BU0MiLCJGTEFHX0RFU0MiXSxbbnVsbCxudWxsXSw3XQ==","node":{"mood":null,"flag":null}},{"cursor":"W1siTU9PRF9BU0MiLCJGTEFHX0RFU0MiXSxbbnVsbCx0cnVlXSw1XQ==","node":{"mood":null,"flag":true}},{"cursor":"W1siTU9PRF9BU0MiLCJGTEFHX0RFU0MiXSxbbnVsbCxmYWxzZV0sNl0=","node":{"mood":null,"flag":false}}]}}}
{ allNotes(orderBy: [BODY_DESC]) { edges { cursor node { body } } } } => {"data":{"allNotes":{"edges":[{"cursor":"W1siQk9EWV9ERVNDIl0sW251bGxdLDJd","node":{"body":null}},{"cursor":"W1siQk9EWV9ERVNDIl0sW251bGxdLDRd","node":{"body":null}},{"cursor":"W1siQk9EWV9ERVNDIl0sW251bGxdLDdd","node":{"body":null}},{"cursor":"W1siQk9EWV9ERVNDIl0sWyLDvGJlciDwn5iAIl0sOF0=","node":{"body":"über 😀"}},{"cursor":"W1siQk9EWV9ERVNDIl0sWyJ0YWJcdGhlcmUiXSwzXQ==","node":{"body":"tab\there"}},{"cursor":"W1siQk9EWV9ERVNDIl0sWyJmaXJzdCJdLDFd","node":{"body":"first"}},{"cursor":"W1siQk9EWV9ERVNDIl0sWyJmaXJzdCJdLDZd","node":{"body":"first"}},{"cursor":"W1siQk9EWV9ERVNDIl0sWyIiXSw1XQ==","node":{"body":""}}]}}}
"##;

#[test]
fn conditions_keep_rows_and_orders_place_them(rt: HostRuntime) -> Result<(), Fail> {
    let told = differences(rt.alloc(), WORKSHOP, WHOLE, CONDITIONS)?;
    assert_eq!(rt; told.as_str(), "");
    let told = differences(rt.alloc(), WORKSHOP, WHOLE, ORDERS)?;
    assert_eq!(rt; told.as_str(), "");
    Ok(())
}
